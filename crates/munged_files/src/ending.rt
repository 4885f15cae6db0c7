//! How the program ends.

ghost use Rattle.std.specs.Prelude.{◌≡◌};
ghost use Rattle.munged_files.specs.Ending.{
  Says,
  ending_by,
  errors_of,
  line_of,
  options,
  status_of,
};
ghost use Rattle.munged_files.specs.EndingTold.{ending_told};
ghost use Rattle.munged_files.specs.Line.{text_of};

use crate::line::{Line, Number, write_line};
use byte_io::Sink;
use option_file::OptionRefused;

/// How the program ends.
#[derive(Clone, Copy, Debug, PartialEq, Eq)]
pub enum Ending<'a> {
    /// The command was done; a session's input was read to its end, and every request was answered.
    Done,
    /// The words ask for nothing that the program does.
    NoCommand,
    /// The file of this name could not be read.
    Unread(&'a str),
    /// So many bytes were read of the key file or the seed file of this name: of a key file fewer
    /// than 32 or more than 1024, of a seed file fewer than 32, or than 32 for each worker.
    WrongSize(&'a str, u64),
    /// The option file is refused; for want of memory it is not, but `NoMemory` is the end.
    BadOptions(&'a OptionRefused),
    /// This line of the passwd or group file of this name may not stand there, counted from 1.
    BadLine(&'a str, u64),
    /// So many bytes were read of the passwd or group file of this name, which are too many.
    TooLong(&'a str, u64),
    /// A read of the input failed.
    InputFailed,
    /// A write to the output failed.
    OutputFailed,
    /// The clock gave no reading.
    ClockFailed,
    /// At this byte of the input, counted from 0, begins what is no request.
    Malformed(u64),
    /// No memory was left.
    NoMemory,
    /// Every request that one session may make was answered, and more input came.
    Budget,
    /// No socket of the option file has control.
    NoControl,
    /// A dial, a read or a write of a socket failed, or a socket could not be opened, or accepts no
    /// more.
    SocketFailed,
    /// The answer to a request to stop is another than that the daemon stops.
    Unanswered,
    /// The ticker that tells when to purge failed.
    TickerFailed,
    /// A call read this ticket word, and found the gate worn.
    Worn(u64),
}

impl<'a> Ending<'a> {
    /// How the program ends where an option file is refused.
    pub fn by(refused: &'a OptionRefused) -> Ending<'a>
        ensures { ending_told result ≡ ending_by refused.now }
    {
        match refused {
            OptionRefused::NoMemory => Ending::NoMemory,
            _ => Ending::BadOptions(refused),
        }
    }

    /// The status of the process.
    pub fn status(self) -> u8
        ensures { result ≡ status_of (ending_told self.entry) }
    {
        match self {
            Ending::Done => 0,
            Ending::NoCommand => 1,
            Ending::Unread(_) => 2,
            Ending::WrongSize(_, _) => 3,
            Ending::BadOptions(_) => 4,
            Ending::BadLine(_, _) => 4,
            Ending::TooLong(_, _) => 4,
            Ending::InputFailed => 5,
            Ending::OutputFailed => 6,
            Ending::ClockFailed => 7,
            Ending::Malformed(_) => 9,
            Ending::NoMemory => 10,
            Ending::Budget => 11,
            Ending::NoControl => 4,
            Ending::SocketFailed => 12,
            Ending::Unanswered => 9,
            Ending::TickerFailed => 13,
            Ending::Worn(_) => 14,
        }
    }

    /// Says in one line on the error stream how the program ends, unless it has done what it was to
    /// do. A fault of that stream is passed over. No memory is taken.
    pub fn say_on<E: Sink>(self, err: &mut E)
        ensures { Says (errors_of (E.taken err.old) (E.write_faults err.old))
            (errors_of (E.taken err.new) (E.write_faults err.new))
            (line_of (ending_told self.entry)) }
    {
        let _ = write_line(err, self.line());
    }

    /// The line.
    fn line(self) -> Line<'a>
        ensures { text_of result ≡ line_of (ending_told self.entry) }
    {
        match self {
            Ending::Done => Line::of(""),
            Ending::NoCommand => Line::of("munged: bad words\n"),
            Ending::Unread(name) => Line {
                name,
                back: "\n",
                ..Line::of("munged: cannot read ")
            },
            Ending::WrongSize(name, size) => Line {
                name,
                middle: " has ",
                number: Number::Count(size),
                back: " bytes\n",
                ..Line::of("munged: ")
            },
            Ending::BadOptions(refused) => options_line(refused),
            Ending::BadLine(name, line) => Line {
                name,
                middle: ": bad line ",
                number: Number::Count(line),
                back: "\n",
                ..Line::of("munged: ")
            },
            Ending::TooLong(name, size) => Line {
                name,
                middle: ": too long ",
                number: Number::Count(size),
                back: "\n",
                ..Line::of("munged: ")
            },
            Ending::InputFailed => Line::of("munged: input failed\n"),
            Ending::OutputFailed => Line::of("munged: output failed\n"),
            Ending::ClockFailed => Line::of("munged: clock failed\n"),
            Ending::Malformed(place) => Line {
                number: Number::Count(place),
                back: "\n",
                ..Line::of("munged: malformed frame at ")
            },
            Ending::NoMemory => Line::of("munged: no memory\n"),
            Ending::Budget => Line::of("munged: 1048576 requests answered\n"),
            Ending::NoControl => Line::of("munged: no control socket\n"),
            Ending::SocketFailed => Line::of("munged: socket failed\n"),
            Ending::Unanswered => Line::of("munged: no answer to stop\n"),
            Ending::TickerFailed => Line::of("munged: ticker failed\n"),
            Ending::Worn(ticket) => Line {
                number: Number::Count(ticket),
                back: "\n",
                ..Line::of("munged: gate worn at ")
            },
        }
    }
}

/// The line that says why an option file is refused.
fn options_line(refused: &OptionRefused) -> Line<'_>
    ensures { text_of result ≡ line_of (options refused.now) }
{
    match refused {
        OptionRefused::TooLong(size) => Line {
            number: Number::Count(*size),
            back: "\n",
            ..Line::of("munged: options: too long ")
        },
        OptionRefused::NotToml => Line::of("munged: options: not toml\n"),
        OptionRefused::Unknown(name) => Line {
            name: name.text(),
            back: "\n",
            ..Line::of("munged: options: unknown ")
        },
        OptionRefused::Missing(key) => Line {
            name: key.name(),
            back: "\n",
            ..Line::of("munged: options: missing ")
        },
        OptionRefused::Wrong(key) => Line {
            name: key.name(),
            back: "\n",
            ..Line::of("munged: options: wrong ")
        },
        OptionRefused::Range(key, number) => Line {
            name: key.name(),
            middle: " out of range ",
            number: Number::Value(*number),
            back: "\n",
            ..Line::of("munged: options: ")
        },
        OptionRefused::Twice(at) => Line {
            number: Number::Count(u64::from(*at)),
            back: " has an earlier path\n",
            ..Line::of("munged: options: socket ")
        },
        OptionRefused::NoMemory => Line::of("munged: options: no memory\n"),
    }
}

/// Says how the program ends, and returns the status of the process.
pub fn end<E: Sink>(err: &mut E, ending: Ending<'_>) -> u8
    ensures status { result ≡ status_of (ending_told ending.entry) }
    ensures says { Says (errors_of (E.taken err.old) (E.write_faults err.old))
        (errors_of (E.taken err.new) (E.write_faults err.new))
        (line_of (ending_told ending.entry)) }
{
    ending.say_on(err);
    ending.status()
}
