// The calls of a list, and what each of them answered.
use device::{Fault, Home, Refusal, Request, State};

/// A call to be sent to a device. The last three are questions, which change nothing.
#[derive(Debug, Drop)]
pub enum Call {
    Submit {
        request: Request,
        bytes: Vec<u8>,
        tick: u32,
    },
    Turn {
        tick: u32,
    },
    Collect {
        tag: u32,
        buffer: Vec<u8>,
    },
    Open,
    Home {
        sector: u32,
    },
    Fault {
        first: u32,
        mask: u8,
    },
}

/// An open ticket as a device names it.
#[derive(Clone, Copy, PartialEq, Eq, Debug)]
pub struct OpenTicket {
    pub tag: u32,
    pub state: State,
}

// Not a `Call` with an answer beside it: such a type could hold a turn with the answer of a collect.
/// A call that was sent, with what the device answered. A collect was given one buffer and left the other.
#[derive(Debug, Drop)]
pub enum Event {
    Submitted {
        request: Request,
        bytes: Vec<u8>,
        tick: u32,
        answer: Result<(), Refusal>,
    },
    Turned {
        tick: u32,
        ticks: u32,
    },
    Collected {
        tag: u32,
        given: Vec<u8>,
        answer: Result<u8, Refusal>,
        buffer: Vec<u8>,
    },
    Opened {
        tickets: Vec<OpenTicket>,
    },
    Homed {
        sector: u32,
        home: Option<Home>,
    },
    Faulted {
        first: u32,
        mask: u8,
        fault: Option<Fault>,
    },
}
