// The settings of the deadline rules. They go by the names of the kernel's tunables.
ghost use Rattle.std.specs.Prelude.{◌≤◌};

/// Settings within their limits: the struct cannot hold others.
#[derive(Clone, Copy, PartialEq, Eq, Debug)]
pub struct Settings {
    /// The ticks after which a waiting read is expired.
    pub read_expire: u32,
    /// The ticks after which a waiting write is expired.
    pub write_expire: u32,
    /// How many read batches may begin while a free write waits.
    pub writes_starved: u32,
    /// How many runs a batch serves at most.
    pub fifo_batch: u32,
    /// Whether a request may join a run in front of its first sector.
    pub front_merges: bool,
    ghost reads: { (1 ≤ read_expire) × (read_expire ≤ 60000) },
    ghost writes: { (1 ≤ write_expire) × (write_expire ≤ 60000) },
    ghost starved: { (1 ≤ writes_starved) × (writes_starved ≤ 16) },
    ghost batches: { (1 ≤ fifo_batch) × (fifo_batch ≤ 64) },
}

/// Why settings are not made. `u8::from` gives its one number.
#[derive(Clone, Copy, PartialEq, Eq, Debug)]
pub enum SettingsCause {
    BeyondLimits,
}
