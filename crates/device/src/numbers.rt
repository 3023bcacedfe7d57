// The one number of each kind, cause and state.
ghost use Rattle.std.specs.Prelude.{◌≡◌, ℕ};
ghost use Rattle.device.specs.Numbers.{kind_number, named_kind, cause_number, state_number};

use crate::interface::{Cause, Kind, State};

impl From<Kind> for u8 {
    ghost from_gives = { λ kind n. n ≡ kind_number kind };

    fn from(kind: Kind) -> u8 {
        match kind {
            Kind::Read => 0,
            Kind::Write => 1,
            Kind::Flush => 2,
        }
    }
}

impl TryFrom<u8> for Kind {
    type Error = Cause;

    ghost try_from_gives = { λ n answer. answer ≡ named_kind n };

    fn try_from(number: u8) -> Result<Kind, Cause> {
        match number {
            0 => Ok(Kind::Read),
            1 => Ok(Kind::Write),
            2 => Ok(Kind::Flush),
            _ => Err(Cause::BadKind),
        }
    }
}

impl From<Cause> for u8 {
    ghost from_gives = { λ cause n. n ≡ cause_number cause };

    fn from(cause: Cause) -> u8 {
        match cause {
            Cause::BadKind => 1,
            Cause::BadCount => 2,
            Cause::PastEnd => 3,
            Cause::BadLength => 4,
            Cause::TagOpen => 5,
            Cause::Full => 6,
            Cause::NotOpen => 7,
            Cause::Waits => 8,
            Cause::ShortBuffer => 9,
        }
    }
}

impl From<State> for u8 {
    ghost from_gives = { λ state n. n ≡ state_number state };

    fn from(state: State) -> u8 {
        match state {
            State::NotOpen => 0,
            State::Waiting => 1,
            State::Ready => 2,
        }
    }
}
