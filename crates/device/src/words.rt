// How a person reads a home, a fault, a state and a refusal.
ghost use Rattle.std.specs.Prelude.{Some};
ghost use Rattle.device.specs.Words.{state_words, home_words, refusal_words, fault_words};

use crate::fault::Fault;
use crate::interface::{Home, Refusal, State};
use std::error::Error;
use std::fmt;

impl fmt::Display for State {
    ghost output = { λ state. Some (state_words state) };

    fn fmt<W: fmt::Write>(&self, f: &mut fmt::Formatter<W>) -> fmt::Result {
        f.write_str(match self {
            State::NotOpen => "not open",
            State::Waiting => "waiting",
            State::Ready => "ready",
        })
    }
}

impl fmt::Display for Home {
    ghost output = { λ home. Some (home_words home) };

    fn fmt<W: fmt::Write>(&self, f: &mut fmt::Formatter<W>) -> fmt::Result {
        write!(f, "height {}, sector {}", self.height, self.sector)
    }
}

impl fmt::Display for Refusal {
    ghost output = { λ refusal. Some (refusal_words refusal) };

    fn fmt<W: fmt::Write>(&self, f: &mut fmt::Formatter<W>) -> fmt::Result {
        let number = u8::from(self.cause);
        write!(f, "refused {} at height {}", number, self.height)
    }
}

impl Error for Refusal {}

impl fmt::Display for Fault {
    ghost output = { λ fault. Some (fault_words fault) };

    fn fmt<W: fmt::Write>(&self, f: &mut fmt::Formatter<W>) -> fmt::Result {
        match self.lowest {
            Some(home) => write!(f, "{} bad, first at {}", self.bad, home),
            None => write!(f, "{} bad, first beyond the end", self.bad),
        }
    }
}
