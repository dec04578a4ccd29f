//! What is asked at a shell.
use tx_command::{CommandLine, CommandTask};
use tx_streams::ProgressLine;

// How many bytes of a script are kept, for notes on what its sessions did.
const KEPT_BYTES: usize = 1_048_576;

/// A job, and what is shown on standard error while it is done.
#[derive(Clone, Copy)]
pub(crate) struct Invocation<'a> {
    pub host: HostRuntime,
    pub job: CommandLine<'a>,
    /// Whether a prompt is shown each time before more of the input is read.
    pub prompts: bool,
    /// Whether what is written goes to a terminal.
    pub is_shown: bool,
    pub progress: &'a ProgressLine,
}

impl Invocation<'_> {
    /// Whether it is a talk at a terminal, in which a fault does not end the script.
    pub(crate) fn is_talk(&self) -> bool {
        self.prompts
            && matches!(
                self.job.task,
                CommandTask::Simulate | CommandTask::SimulateOn
            )
    }

    /// Who shows a prompt, where one is shown.
    pub(crate) fn prompter(&self) -> Option<HostRuntime> {
        if self.prompts { Some(self.host) } else { None }
    }

    /// Whether it is said of each fault why it is one, as it comes.
    pub(crate) fn says_why(&self) -> bool {
        self.is_talk() || self.job.task == CommandTask::SimulateOn
    }

    /// How many bytes of the input are kept, for who has to look at it once more.
    pub(crate) fn kept(&self) -> usize {
        match self.job.task {
            CommandTask::SimulateChecked
            | CommandTask::SimulateSteps
            | CommandTask::SimulateBeside => usize::MAX,
            CommandTask::Simulate | CommandTask::Run(..) if !self.is_talk() => KEPT_BYTES,
            _ => 0,
        }
    }
}
