// A device run dry: turned until nothing waits there.
ghost use Rattle.dry.specs.Dry.{Dry};

use device::Device;

/// The most ticks that a turn answers.
const MOST_TICKS: u32 = 60000;

/// Turns a device until nothing waits there, and adds up the ticks, at most 60,000. As many turns as tickets are open suffice.
pub fn run_dry<D: Device>(device: &mut D, tick: u32) -> u32
    ensures keeps { D.kept device.old → D.kept device.new }
    ensures dries { D.kept device.old → Dry D.meaning D.does tick device.old device.new result }
{
    let mut ticks = 0u32;
    for _ in 0..device.open_tickets() {
        ticks = ticks.saturating_add(device.turn(tick)).min(MOST_TICKS);
    }
    ticks
}
