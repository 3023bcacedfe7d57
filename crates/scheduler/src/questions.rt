// What a scheduler answers of itself.
ghost use Rattle.std.specs.Prelude.{◌≡◌, length};
ghost use Rattle.deadline.specs.Waiting.{has_tag};
ghost use Rattle.scheduler.specs.Meaning.{state_of};

use crate::state::Scheduler;

impl Scheduler {
    /// Whether the ticket of a tag waits.
    pub fn waits(&self, tag: u32) -> bool
        ensures { result ≡ has_tag tag self.now.waiting.tickets.items }
    {
        self.waiting.holds_tag(tag)
    }

    /// How many tickets wait.
    pub fn waiting(&self) -> u32
        ensures { result ≡ length self.now.waiting.tickets.items }
    {
        self.waiting.tickets.len() as u32
    }

    /// The latest tick that counted.
    pub fn latest(&self) -> u32
        ensures { result ≡ (state_of self.now).latest }
    {
        self.latest
    }
}
