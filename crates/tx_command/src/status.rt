//! The status and the warning with which the program ends.
ghost use Rattle.std.specs.Prelude.{◌≡◌};
ghost use Rattle.tx_command.specs.Status.{command_end, status, message};

use tx_text::{Broken, End};

/// How a command ended, where it was not broken off.
#[derive(Clone, Copy, Debug, PartialEq, Eq)]
pub enum CommandEnd {
    /// All was well.
    Well,
    /// The input or the command line is not as it should be.
    Faulted,
    /// What was checked does not hold.
    No,
    /// Nothing was found of what was asked.
    Open,
}

impl CommandEnd {
    /// How a command ends whose text was played or checked to this end.
    pub fn of(end: End) -> CommandEnd
        ensures { result ≡ command_end end }
    {
        match end {
            End::Well => CommandEnd::Well,
            End::Faulted => CommandEnd::Faulted,
            End::No => CommandEnd::No,
        }
    }
}

/// 0 where all was well, 2 for a fault of the input or of the command line, 3 for a verdict of no,
/// 4 where the command was broken off, 5 where the verdict is open.
pub fn status_of(end: Result<CommandEnd, Broken>) -> u8
    ensures { result ≡ status end }
{
    match end {
        Ok(CommandEnd::Well) => 0,
        Ok(CommandEnd::Faulted) => 2,
        Ok(CommandEnd::No) => 3,
        Err(_) => 4,
        Ok(CommandEnd::Open) => 5,
    }
}

/// The warning before status 4.
pub fn message_of(broken: Broken) -> &'static str
    ensures { result.now ≡ message broken }
{
    match broken {
        Broken::Input => "the input failed",
        Broken::Output => "the output failed",
        Broken::Memory => "out of memory",
    }
}
