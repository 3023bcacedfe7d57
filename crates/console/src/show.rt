// What the console prints of each answer.
ghost use Rattle.std.specs.Iterator.{IsFinite};

use device::Device;
use history::{Event, OpenTicket};
use std::fmt;

/// Writes the items of a list, `between` between two of them, or that there is none.
fn write_list<W: fmt::Write, I: Iterator + Drop>(
    f: &mut fmt::Formatter<W>,
    mut items: I,
    between: &str,
) -> fmt::Result
where
    I::Item: fmt::Display + Drop,
    requires can { I.can_next items }
    requires ends { IsFinite (I.remaining items) }
{
    let Some(first) = items.next() else {
        return f.write_str("none");
    };
    write!(f, "{first}")?;
    for item in items {
        write!(f, "{between}{item}")?;
    }
    Ok(())
}

/// A run of equal bytes.
#[derive(Clone, Copy)]
struct Run<'a>(&'a [u8]);

impl fmt::Display for Run<'_> {
    fn fmt<W: fmt::Write>(&self, f: &mut fmt::Formatter<W>) -> fmt::Result {
        self.0
            .first()
            .map_or(Ok(()), |b| write!(f, "{b}x{}", self.0.len()))
    }
}

/// Bytes, as their runs.
#[derive(Clone, Copy)]
pub(crate) struct Bytes<'a>(pub(crate) &'a [u8]);

impl fmt::Display for Bytes<'_> {
    fn fmt<W: fmt::Write>(&self, f: &mut fmt::Formatter<W>) -> fmt::Result {
        write_list(f, self.0.chunk_by(|a, b| a == b).map(Run), " ")
    }
}

/// An open ticket.
#[derive(Clone, Copy)]
struct Ticket(OpenTicket);

impl fmt::Display for Ticket {
    fn fmt<W: fmt::Write>(&self, f: &mut fmt::Formatter<W>) -> fmt::Result {
        write!(f, "{} {}", self.0.tag, self.0.state)
    }
}

/// Open tickets, the oldest first.
#[derive(Clone, Copy)]
struct Tickets<'a>(&'a [OpenTicket]);

impl fmt::Display for Tickets<'_> {
    fn fmt<W: fmt::Write>(&self, f: &mut fmt::Formatter<W>) -> fmt::Result {
        write_list(f, self.0.iter().copied().map(Ticket), ", ")
    }
}

/// A call with what the device answered.
#[derive(Clone, Copy)]
pub(crate) struct Answered<'a>(pub(crate) &'a Event);

impl fmt::Display for Answered<'_> {
    fn fmt<W: fmt::Write>(&self, f: &mut fmt::Formatter<W>) -> fmt::Result {
        match self.0 {
            Event::Submitted {
                request,
                answer: Ok(()),
                ..
            } => write!(f, "submit {}: accepted", request.tag),
            Event::Submitted {
                request,
                answer: Err(refusal),
                ..
            } => write!(f, "submit {}: {refusal}", request.tag),
            Event::Turned { ticks, .. } => write!(f, "turn: {ticks} ticks"),
            Event::Collected {
                tag,
                answer: Ok(mask),
                buffer,
                ..
            } => write!(f, "collect {tag}: mask {mask}, buffer {}", Bytes(buffer)),
            Event::Collected {
                tag,
                answer: Err(refusal),
                ..
            } => write!(f, "collect {tag}: {refusal}"),
            Event::Opened { tickets } => write!(f, "open: {}", Tickets(tickets)),
            Event::Homed {
                sector,
                home: Some(home),
            } => write!(f, "home {sector}: {home}"),
            Event::Homed { sector, home: None } => write!(f, "home {sector}: none"),
            Event::Faulted {
                fault: Some(fault),
                ..
            } => write!(f, "fault: {fault}"),
            Event::Faulted { fault: None, .. } => f.write_str("fault: none"),
        }
    }
}

/// The shape of a stack.
#[derive(Clone, Copy)]
pub(crate) struct Shape {
    size: u32,
    capacity: u32,
    height: u8,
}

impl Shape {
    pub(crate) fn of<D: Device>(device: &D) -> Shape {
        Shape {
            size: device.size(),
            capacity: device.capacity(),
            height: device.height(),
        }
    }
}

impl fmt::Display for Shape {
    fn fmt<W: fmt::Write>(&self, f: &mut fmt::Formatter<W>) -> fmt::Result {
        write!(
            f,
            "stack: size {}, capacity {}, height {}",
            self.size, self.capacity, self.height
        )
    }
}
