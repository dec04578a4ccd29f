//! What is shown on standard error while a command is at work.
use crate::{CommandLine, CommandTask, ExplainOptions};

/// Which of the three streams of a program are terminals.
#[derive(Clone, Copy, Debug, PartialEq, Eq)]
pub struct Terminals {
    pub input: bool,
    pub output: bool,
    pub error: bool,
}

/// What is shown on standard error while a task is done.
#[derive(Clone, Copy, Debug, PartialEq, Eq)]
pub enum Display {
    Nothing,
    /// A prompt each time a line is awaited, for whoever types and sees the replies.
    Prompts,
    /// How far it has come.
    ProgressLine,
}

/// What is shown while a job is done.
pub fn shown_at(job: CommandLine<'_>, terminals: Terminals) -> Display {
    let is_typed = terminals.input && terminals.output && job.file.is_none();
    match job.task {
        // It reads nothing.
        CommandTask::Generate(_) => Display::Nothing,
        _ if is_typed => Display::Prompts,
        CommandTask::Run(..)
        | CommandTask::Check
        | CommandTask::CheckWithReason
        | CommandTask::CheckAll(_)
        | CommandTask::Import(_)
            if terminals.error => Display::ProgressLine,
        _ => Display::Nothing,
    }
}

// Whether a run is shown as text of which the command line does not say how wide it is.
fn is_of_any_width(told: ExplainOptions) -> bool {
    told.width.is_none() && !told.svg && !told.html
}

/// A job as it is done at these terminals, which have lines of so many places: where a run is shown
/// as text at one, and the command line says no width, its lines have as many.
pub fn fitted(job: CommandLine<'_>, terminals: Terminals, width: usize) -> CommandLine<'_> {
    match job.task {
        CommandTask::Explain(told) if terminals.output && is_of_any_width(told) => CommandLine {
            task: CommandTask::Explain(ExplainOptions {
                width: Some(width),
                ..told
            }),
            ..job
        },
        _ => job,
    }
}
