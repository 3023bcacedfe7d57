use crate::Scheduler;
use deadline::{Choice, Settings};
use device::{Cause, Kind};
use std::test::Fail;

// The tag of what a turn serves: the flush, or the head of the run.
fn served(choice: Choice) -> Option<u32> {
    match choice {
        Choice::Idle => None,
        Choice::PassesDown(tag) => Some(tag),
        Choice::GoesOn(r) | Choice::BeginsWith(r) => Some(r.name),
    }
}

#[test]
fn one_run_to_a_batch(rt: HostRuntime) -> Result<(), Fail> {
    let mut s = Scheduler::new(rt.alloc(), Settings::new(500, 5000, 2, 1, 1)?)?;
    let firsts = [10, 20, 30, 40];
    for first in firsts {
        s.submit(first, Kind::Read, first, 1, 0)?;
    }
    s.submit(50, Kind::Write, 50, 1, 0)?;
    let order = [10, 20, 50, 30, 40];
    for tag in order {
        assert_eq!(rt; served(s.turn(0)), Some(tag));
    }
    assert_eq!(rt; served(s.turn(0)), None);
    Ok(())
}

#[test]
fn joined_runs_go_together(rt: HostRuntime) -> Result<(), Fail> {
    let mut s = Scheduler::new(rt.alloc(), Settings::usual())?;
    s.submit(14, Kind::Read, 14, 4, 0)?;
    s.submit(10, Kind::Read, 10, 4, 0)?;
    assert_eq!(rt; s.waiting(), 2);
    assert_eq!(rt; served(s.turn(0)), Some(14));
    assert_eq!(rt; s.waiting(), 0);
    assert_eq!(rt; served(s.turn(0)), None);
    Ok(())
}

#[test]
fn a_refused_request_says_why(rt: HostRuntime) -> Result<(), Fail> {
    let mut s = Scheduler::new(rt.alloc(), Settings::usual())?;
    for tag in 0..32 {
        s.submit(tag, Kind::Write, 100, 1, 0)?;
    }
    assert_eq!(rt; s.submit(32, Kind::Write, 65535, 1, 0), Err(Cause::Full));
    assert_eq!(rt; s.submit(32, Kind::Write, 65535, 2, 0), Err(Cause::PastEnd));
    assert_eq!(rt; s.waiting(), 32);
    Ok(())
}
