//! How a tool ends.

ghost use Rattle.std.specs.Prelude.{◌≡◌};
ghost use Rattle.munge_tools.specs.Ending.{Says, errors_of, line_of, reason_of, status_of};
ghost use Rattle.munge_tools.specs.Unheard.{ending_of};

use crate::exchange::Unheard;
use crate::line::write_line;
use byte_io::Sink;

/// How a tool ends.
#[derive(Clone, Copy, Debug, PartialEq, Eq)]
pub enum Ending {
    /// With this status, of which nothing is said.
    Done(u8),
    /// The daemon did not seal, but answered this status.
    Refused(u8),
    /// What was to be sent is too long. Nothing was dialled.
    TooLong,
    /// The words ask for nothing that the tool does.
    BadWords,
    /// A dial, a read or a write of the connection failed.
    Unreached,
    /// What came is no reply that fits.
    BadReply,
    /// A read of the input failed.
    InputFailed,
    /// A write to the output failed.
    OutputFailed,
    /// No memory was left.
    NoMemory,
}

impl Ending {
    /// How a tool ends where no fitting reply came.
    pub fn of(why: Unheard) -> Ending
        ensures { result ≡ ending_of why }
    {
        match why {
            Unheard::Unreached => Ending::Unreached,
            Unheard::BadReply => Ending::BadReply,
            Unheard::NoMemory => Ending::NoMemory,
        }
    }

    /// The status of the process.
    pub fn status(self) -> u8
        ensures { result ≡ status_of self }
    {
        match self {
            Ending::Done(status) => status,
            Ending::Refused(status) => status,
            Ending::TooLong => 3,
            Ending::BadWords => 100,
            Ending::Unreached => 101,
            Ending::BadReply => 102,
            Ending::InputFailed => 103,
            Ending::OutputFailed => 104,
            Ending::NoMemory => 105,
        }
    }

    /// What is said of it besides a number, which is nothing where it is only done.
    fn reason(self) -> &'static str
        ensures { result.now ≡ reason_of self }
    {
        match self {
            Ending::Done(_) => "",
            Ending::Refused(_) => "status ",
            Ending::TooLong => "too long",
            Ending::BadWords => "bad words",
            Ending::Unreached => "cannot reach the daemon",
            Ending::BadReply => "bad reply",
            Ending::InputFailed => "input failed",
            Ending::OutputFailed => "output failed",
            Ending::NoMemory => "no memory",
        }
    }

    /// Says in one line on the error stream how the tool of this name ends, if there is something to
    /// be said. A fault of that stream is passed over. No memory is taken.
    fn say_on<E: Sink>(self, tool: &str, err: &mut E)
        ensures { Says (errors_of (E.taken err.old) (E.write_faults err.old))
            (errors_of (E.taken err.new) (E.write_faults err.new))
            (line_of tool.now self) }
    {
        match self {
            Ending::Done(_) => {}
            Ending::Refused(status) => {
                let _ = write_line(err, tool, self.reason(), Some(status));
            }
            _ => {
                let _ = write_line(err, tool, self.reason(), None);
            }
        }
    }
}

/// Says how the tool of this name ends, and returns the status of the process.
pub fn end<E: Sink>(tool: &str, err: &mut E, ending: Ending) -> u8
    ensures status { result ≡ status_of ending }
    ensures says { Says (errors_of (E.taken err.old) (E.write_faults err.old))
        (errors_of (E.taken err.new) (E.write_faults err.new))
        (line_of tool.now ending) }
{
    ending.say_on(tool, err);
    ending.status()
}
