// The words of the interface: what a request asks, and what a device answers.

/// What a request does with its run of sectors.
#[derive(Clone, Copy, PartialEq, Eq, Debug)]
pub enum Kind {
    Read,
    Write,
    Flush,
}

/// Why a call is refused. `u8::from` gives the one number of each.
#[derive(Clone, Copy, PartialEq, Eq, Debug)]
pub enum Cause {
    BadKind,
    BadCount,
    PastEnd,
    BadLength,
    TagOpen,
    Full,
    NotOpen,
    Waits,
    ShortBuffer,
}

/// How far the request of a tag has come.
#[derive(Clone, Copy, PartialEq, Eq, Debug)]
pub enum State {
    NotOpen,
    Waiting,
    Ready,
}

/// The home of a sector: the height of the device on which it lies in the end, and its number there.
#[derive(Clone, Copy, PartialEq, Eq, Debug)]
pub struct Home {
    pub height: u8,
    pub sector: u32,
}

/// A request as its sender writes it; `kind` is 0 for a read, 1 for a write, 2 for a flush.
// The kind is a number, by a rule of the project: every number is taken, and one above 2 is refused by `BadKind`.
// First and count stay two numbers: each is judged and moved by itself, so that a struct of the two would be taken apart at each use.
#[derive(Clone, Copy, PartialEq, Eq, Debug)]
pub struct Request {
    pub tag: u32,
    pub kind: u8,
    pub first: u32,
    pub count: u32,
}

/// What a refused call returns: the cause, and the height of the device that was called.
#[derive(Clone, Copy, PartialEq, Eq, Debug)]
pub struct Refusal {
    pub cause: Cause,
    pub height: u8,
}
