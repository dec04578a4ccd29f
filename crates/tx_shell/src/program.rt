//! The program: its words, its streams, and the status with which it ends.
use crate::answer::answer;
use crate::failure::Stopped;
use crate::invocation::Invocation;
use crate::more::MoreCommands;
use clap::error::ErrorKind;
use std::env::Env;
use std::io::IsTerminal;
use std::process::ExitCode;
use std::rt::Files;
use std::sync::Wait;
use std::thread::Threads;
use std::{env, fs, io};
use tx_command::{
    CommandEnd, CommandLine, Display, Terminals, fault_text, fitted, job_of, message_of, parse,
    shown_at, status_of, width_of,
};
use tx_hints::{escaped, wrapped};
use tx_streams::ProgressLine;
use tx_text::Broken;

// Does what is asked over the input that is named.
fn run<R, M>(rt: &R, more: &M, asked: &Invocation<'_>) -> Result<CommandEnd, Stopped>
where
    R: Input + Files + Print + Eprint + AllocGlobal + Threads + Wait + Sync + Send + Clone + Drop,
    M: MoreCommands,
{
    let Some(name) = asked.job.file else {
        return answer(rt, more, asked, rt.reader(), io::writer(rt));
    };
    match fs::open(rt, name) {
        Ok(file) => answer(rt, more, asked, file, io::writer(rt)),
        Err(error) => Err(Stopped {
            why: Broken::Input,
            cause: Some(error),
        }),
    }
}

// Whether nobody reads what is written any more: whoever did so knows it.
fn is_quiet(stopped: Stopped) -> bool {
    match stopped.cause {
        Some(cause) => stopped.why == Broken::Output && cause.kind() == io::ErrorKind::BrokenPipe,
        None => false,
    }
}

// The warning before status 4: the file, where its input failed, and what the system says. What
// cannot be said is left out, and nothing is said to a pipe that was closed.
fn warn<R: Eprint + AllocGlobal>(rt: &R, file: Option<&str>, stopped: Stopped) {
    if is_quiet(stopped) {
        return;
    }
    let message = message_of(stopped.why);
    let file = file.filter(|_| stopped.why == Broken::Input);
    let Ok(file) = escaped(rt.alloc(), file.unwrap_or_default()) else {
        return;
    };
    let between = if file.is_empty() { "" } else { ": " };
    let _ = match stopped.cause {
        Some(cause) => eprintln!(rt; "txkv: {file}{between}{message}: {cause}"),
        None => eprintln!(rt; "txkv: {file}{between}{message}"),
    };
}

// The words of the command line.
fn words<R: Env + AllocGlobal>(rt: &R) -> io::Result<Vec<String>> {
    let mut words = Vec::new(rt.alloc());
    for word in env::args(rt)? {
        words.push(word)?;
    }
    Ok(words)
}

/// How many places a line has at most that is shown at a terminal: as many as `COLUMNS` says of it,
/// else 80.
pub fn terminal_width<R: Env + AllocGlobal>(rt: &R) -> usize {
    match env::var(rt, "COLUMNS") {
        Ok(columns) => width_of(Some(columns.as_str())),
        Err(_) => width_of(None),
    }
}

// Tells a fault of the command line, in lines of so many places.
fn tell_fault<R: Eprint + AllocGlobal>(
    rt: &R,
    error: &clap::Error,
    width: usize,
) -> Result<CommandEnd, Broken> {
    let alloc = rt.alloc();
    let told = match fault_text(alloc, error) {
        Ok(text) => wrapped(alloc, text.as_str(), width),
        Err(error) => Err(error),
    };
    let Ok(told) = told else {
        return Err(broken(rt, Broken::Memory, None));
    };
    match eprint!(rt; "{told}") {
        Ok(()) => Ok(CommandEnd::Faulted),
        Err(cause) => Err(broken(rt, Broken::Output, Some(cause))),
    }
}

// A request for help or the version ends well, on standard output; a fault of the command line is
// told on standard error.
fn report<R: Print + Eprint + AllocGlobal>(
    rt: &R,
    error: &clap::Error,
    width: usize,
) -> Result<CommandEnd, Broken> {
    if error.kind() == ErrorKind::OutOfMemory {
        return Err(broken(rt, Broken::Memory, None));
    }
    if error.use_stderr() {
        return tell_fault(rt, error, width);
    }
    match error.print(rt) {
        Err(cause) => Err(broken(rt, Broken::Output, Some(cause))),
        Ok(()) => Ok(CommandEnd::Well),
    }
}

// Warns of what was broken off before any job.
fn broken<R: Eprint + AllocGlobal>(rt: &R, why: Broken, cause: Option<io::Error>) -> Broken {
    warn(rt, None, Stopped { why, cause });
    why
}

// The words of the command line could not be read: there was no room for them, or one of them is
// not UTF-8.
fn unread<R: Eprint + AllocGlobal>(rt: &R, error: &io::Error) -> Result<CommandEnd, Broken> {
    if error.kind() == io::ErrorKind::OutOfMemory {
        return Err(broken(rt, Broken::Memory, None));
    }
    match eprintln!(rt;
        "error: a word of the command line is not UTF-8; a file of such a name is read by '< FILE'"
    ) {
        Ok(()) => Ok(CommandEnd::Faulted),
        Err(_) => Err(Broken::Output),
    }
}

// Does a job, and shows on standard error what is to be seen of it meanwhile. A terminal has lines
// of so many places.
fn start<R, M>(
    rt: &R,
    more: &M,
    host: HostRuntime,
    job: CommandLine<'_>,
    width: usize,
) -> Result<CommandEnd, Broken>
where
    R: Input + Files + Print + Eprint + AllocGlobal + Threads + Wait + Sync + Send + Clone + Drop,
    M: MoreCommands,
{
    let terminals = Terminals {
        input: host.stdin().is_terminal(),
        output: host.stdout().is_terminal(),
        error: host.stderr().is_terminal(),
    };
    let job = fitted(job, terminals, width);
    let shown = shown_at(job, terminals);
    let progress = ProgressLine::new(host, shown == Display::ProgressLine);
    let asked = Invocation {
        host,
        job,
        prompts: shown == Display::Prompts,
        is_shown: terminals.output,
        progress: &progress,
    };
    match run(rt, more, &asked) {
        Ok(end) => Ok(end),
        Err(stopped) => {
            warn(rt, job.file, stopped);
            Err(stopped.why)
        }
    }
}

/// The program `txkv`, by the words that it was called with and over its standard streams, with the
/// commands that `more` has.
pub fn txkv<R, M>(rt: &R, more: &M, host: HostRuntime) -> ExitCode
where
    R: Env + Input + Files + Print + Eprint + AllocGlobal + Threads + Wait,
    R: Sync + Send + Clone + Drop,
    M: MoreCommands,
{
    let words = words(rt);
    let width = terminal_width(rt);
    let end = match words {
        Err(error) => unread(rt, &error),
        Ok(words) => match parse(rt.alloc(), words.as_slice(), width) {
            Ok(matches) => start(rt, more, host, job_of(&matches), width),
            Err(error) => report(rt, &error, width),
        },
    };
    ExitCode::from(status_of(end))
}
