// Making settings.
ghost use Rattle.std.specs.Prelude.{◌≡◌, ℕ, cond};
ghost use Rattle.deadline.specs.Settings.{settings_from, settings_of, made_from, cause_number, usual};

use crate::settings::{Settings, SettingsCause};

/// The longest period, in ticks.
const MOST_TICKS: u32 = 60_000;

/// The most read batches that may begin while a free write waits.
const MOST_STARVED: u32 = 16;

/// The most runs of a batch.
const MOST_BATCH: u32 = 64;

impl From<SettingsCause> for u8 {
    ghost from_gives = { λ cause n. n ≡ cause_number cause };

    fn from(cause: SettingsCause) -> u8 {
        match cause {
            SettingsCause::BeyondLimits => 10,
        }
    }
}

impl Settings {
    /// Settings of these five numbers, or none where one is beyond its limits: 1 to 60,000 ticks for each period, 1 to 16 read
    /// batches, 1 to 64 runs, and 0 or 1 for front merges.
    // Front merges are a number, not a `bool`: a rule of the project is that every number is taken, and one above 1 refused by 10.
    pub fn new(
        read_expire: u32,
        write_expire: u32,
        writes_starved: u32,
        fifo_batch: u32,
        front_merges: u32,
    ) -> Result<Settings, SettingsCause>
        ensures { made_from result ≡ settings_from read_expire write_expire writes_starved fifo_batch front_merges }
    {
        let in_limits = (1..=MOST_TICKS).contains(&read_expire)
            && (1..=MOST_TICKS).contains(&write_expire)
            && (1..=MOST_STARVED).contains(&writes_starved)
            && (1..=MOST_BATCH).contains(&fifo_batch)
            && front_merges <= 1;
        if !in_limits {
            return Err(SettingsCause::BeyondLimits);
        }
        Ok(Settings {
            read_expire,
            write_expire,
            writes_starved,
            fifo_batch,
            front_merges: front_merges == 1,
        })
    }

    /// The settings of an elevator for which none are chosen: 500 and 5,000 ticks, 2 read batches, 16 runs, front merges.
    pub fn usual() -> Settings
        ensures { settings_of result ≡ usual }
    {
        Settings {
            read_expire: 500,
            write_expire: 5000,
            writes_starved: 2,
            fifo_batch: 16,
            front_merges: true,
        }
    }
}
