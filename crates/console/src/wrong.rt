// What can be wrong with a line of a script.
use std::alloc::AllocError;
use std::error::Error;
use std::fmt;

/// Why a line is no command.
#[derive(Clone, Copy, Debug)]
pub(crate) enum Wrong {
    Command,
    Words,
    StackNotFirst,
    StackName,
    Tag,
    Kind,
    First,
    Count,
    Data,
    Length,
    Tick,
    Room,
    Sector,
    Mask,
}

impl fmt::Display for Wrong {
    fn fmt<W: fmt::Write>(&self, f: &mut fmt::Formatter<W>) -> fmt::Result {
        f.write_str(match self {
            Wrong::Command => "no such command",
            Wrong::Words => "too few or too many words for this command",
            Wrong::StackNotFirst => "the stack is chosen by the first command, or not at all",
            Wrong::StackName => "no stack has this name",
            Wrong::Tag => "TAG is not a number up to 4294967295",
            Wrong::Kind => "KIND is not read, write, flush or a number up to 255",
            Wrong::First => "FIRST is not a number up to 4294967295",
            Wrong::Count => "COUNT is not a number up to 4294967295",
            Wrong::Data =>
                "DATA is not -, fill:N or from:N with N up to 255, nor one of these with :LEN",
            Wrong::Length => "LEN is not a number up to 65536",
            Wrong::Tick => "TICK is not a number up to 4294967295",
            Wrong::Room => "ROOM is not a number up to 65536",
            Wrong::Sector => "SECTOR is not a number up to 4294967295",
            Wrong::Mask => "MASK is not a number up to 255",
        })
    }
}

impl Error for Wrong {}

/// What is wrong with the line of a number.
#[derive(Clone, Copy, Debug)]
pub(crate) struct Complaint {
    pub(crate) number: usize,
    pub(crate) wrong: Wrong,
}

impl fmt::Display for Complaint {
    fn fmt<W: fmt::Write>(&self, f: &mut fmt::Formatter<W>) -> fmt::Result {
        write!(f, "line {}: {}", self.number, self.wrong)
    }
}

/// Why a line gives no call: it is no command, or there is no memory for its bytes.
#[derive(Debug, Drop)]
pub(crate) enum Problem {
    Line(Wrong),
    Memory(AllocError),
}

impl From<Wrong> for Problem {
    fn from(wrong: Wrong) -> Problem {
        Problem::Line(wrong)
    }
}

impl From<AllocError> for Problem {
    fn from(e: AllocError) -> Problem {
        Problem::Memory(e)
    }
}

impl Problem {
    /// The complaint about the line of a number, or the want of memory.
    pub(crate) fn at(self, number: usize) -> Result<Complaint, AllocError> {
        match self {
            Problem::Line(wrong) => Ok(Complaint { number, wrong }),
            Problem::Memory(e) => Err(e),
        }
    }
}
