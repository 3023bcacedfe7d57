// Examples of what a drive answers, and of what reaches its medium. Each is proved to be safe, and run.
#![tactic(auto)]

#[cfg(test)]
mod tests {
    use device::{Device, Kind, RUN_BYTES, Request};
    use drive::Drive;
    use std::process::Abort;
    use std::test::Fail;

    // numbers that name no sector
    const NONE: [u32; 8] = [65536; 8];

    // One request by itself, and the byte that fills its data.
    #[derive(Clone, Copy, Debug)]
    struct Step {
        kind: Kind,
        first: u32,
        count: u32,
        fill: u8,
    }

    const FLUSH: Step = Step {
        kind: Kind::Flush,
        first: 0,
        count: 0,
        fill: 0,
    };

    fn write(first: u32, count: u32, fill: u8) -> Step {
        Step {
            kind: Kind::Write,
            first,
            count,
            fill,
        }
    }

    fn read(sector: u32) -> Step {
        Step {
            kind: Kind::Read,
            first: sector,
            count: 1,
            fill: 0,
        }
    }

    // Submits a step, turns once, and collects; the ticks, and the byte in the middle of the buffer's first sector.
    // Its own, and not shared with the other examples: one sends wrong lengths, one serves a step, one sends what is due.
    fn serve<D: Device>(device: &mut D, step: Step) -> (u32, u8) {
        let data = [step.fill; RUN_BYTES];
        let mut buffer = [238; RUN_BYTES];
        let given = step.kind.due_length(step.count).min(RUN_BYTES);
        let request = Request {
            tag: 1,
            kind: step.kind.into(),
            first: step.first,
            count: step.count,
        };
        let _ = device.submit(request, &data[..given], 0);
        let ticks = device.turn(0);
        let _ = device.collect(1, &mut buffer);
        (ticks, buffer[64])
    }

    // Serves the steps, each of which takes so many ticks.
    fn serve_all<D: Device>(rt: &impl Abort, device: &mut D, steps: &[(Step, u32)]) {
        for (step, ticks) in steps {
            assert_eq!(rt; serve(device, *step).0, *ticks, "at {step:?}");
        }
    }

    // The byte in the middle of a sector.
    fn shown<D: Device>(device: &mut D, sector: u32) -> u8 {
        serve(device, read(sector)).1
    }

    // Eight sectors fill the buffer, and none reaches the medium.
    #[test]
    fn eight_sectors_stay(rt: HostRuntime) -> Result<(), Fail> {
        let mut bytes = [0u8; 4096];
        let mut drive = Drive::new(rt.alloc(), &mut bytes, NONE)?;
        serve_all(&rt, &mut drive, &[(write(0, 8, 5), 1)]);
        assert_eq!(rt; shown(&mut drive, 7), 5);
        drop(drive);
        assert_eq!(rt; bytes[0], 0);
        assert_eq!(rt; bytes[1023], 0);
        Ok(())
    }

    // A ninth pushes out the one longest in the buffer, not the youngest; rewriting keeps a sector's place.
    #[test]
    fn the_ninth_pushes_out_the_longest_in(rt: HostRuntime) -> Result<(), Fail> {
        let mut bytes = [0u8; 4096];
        let mut drive = Drive::new(rt.alloc(), &mut bytes, NONE)?;
        serve_all(
            &rt,
            &mut drive,
            &[
                (write(0, 8, 5), 1),
                (write(0, 1, 6), 1),
                (write(8, 1, 7), 1),
            ],
        );
        assert_eq!(rt; shown(&mut drive, 0), 6);
        drop(drive);
        assert_eq!(rt; bytes[0], 6);
        assert_eq!(rt; bytes[128], 0);
        assert_eq!(rt; bytes[1024], 0);
        Ok(())
    }

    // Sixteen push out the first eight, and a flush puts the other eight.
    #[test]
    fn sixteen_sectors_and_a_flush(rt: HostRuntime) -> Result<(), Fail> {
        let mut bytes = [0u8; 4096];
        let mut drive = Drive::new(rt.alloc(), &mut bytes, NONE)?;
        serve_all(
            &rt,
            &mut drive,
            &[
                (write(0, 8, 5), 1),
                (write(8, 8, 6), 1),
                (FLUSH, 9),
                (FLUSH, 1),
            ],
        );
        drop(drive);
        assert_eq!(rt; bytes[1023], 5);
        assert_eq!(rt; bytes[1024], 6);
        assert_eq!(rt; bytes[2047], 6);
        assert_eq!(rt; bytes[2048], 0);
        Ok(())
    }

    // A bad sector inside a run is not brought in, and takes no place.
    #[test]
    fn bad_sectors_take_no_place(rt: HostRuntime) -> Result<(), Fail> {
        let mut bytes = [3u8; 4096];
        let mut drive = Drive::new(rt.alloc(), &mut bytes, [2, 5, 99, 99, 99, 99, 99, 99])?;
        serve_all(&rt, &mut drive, &[(write(0, 8, 5), 1), (write(8, 2, 6), 1)]);
        assert_eq!(rt; shown(&mut drive, 2), 0);
        assert_eq!(rt; shown(&mut drive, 9), 6);
        serve_all(&rt, &mut drive, &[(FLUSH, 9)]);
        drop(drive);
        assert_eq!(rt; bytes[256], 3);
        assert_eq!(rt; bytes[0], 5);
        Ok(())
    }

    // A read across buffered and unbuffered sectors, and the capacity of one ticket.
    #[test]
    fn reads_take_buffered_bytes_first(rt: HostRuntime) -> Result<(), Fail> {
        let mut bytes = [3u8; 4096];
        let mut drive = Drive::new(rt.alloc(), &mut bytes, NONE)?;
        serve_all(&rt, &mut drive, &[(write(1, 1, 5), 1)]);
        assert_eq!(rt; drive.capacity(), 1);
        let request = Request {
            tag: 1,
            kind: Kind::Read.into(),
            first: 0,
            count: 3,
        };
        let mut buffer = [238u8; 400];
        assert_eq!(rt; drive.submit(request, &[], 0), Ok(()));
        assert_eq!(rt; drive.turn(0), 1);
        assert_eq!(rt; drive.collect(1, &mut buffer), Ok(0));
        assert_eq!(rt; buffer[127], 3);
        assert_eq!(rt; buffer[128], 5);
        assert_eq!(rt; buffer[256], 3);
        assert_eq!(rt; buffer[384], 238);
        Ok(())
    }

    // Distances 0, 15 and 16, forth and back.
    #[test]
    fn short_ways(rt: HostRuntime) -> Result<(), Fail> {
        let mut bytes = [0u8; 8192];
        let mut drive = Drive::new(rt.alloc(), &mut bytes, NONE)?;
        serve_all(
            &rt,
            &mut drive,
            &[
                (read(0), 1),
                (read(1), 1),
                (read(17), 1),
                (read(34), 2),
                (read(20), 1),
                (read(5), 2),
            ],
        );
        Ok(())
    }

    // The longest way.
    #[test]
    fn the_longest_way(rt: HostRuntime) -> Result<(), Fail> {
        let mut bytes = vec![in rt.alloc(); 0u8; 8388608]?;
        let mut drive = Drive::new(rt.alloc(), bytes.as_mut_slice(), NONE)?;
        serve_all(&rt, &mut drive, &[(read(65535), 4096), (read(0), 4097)]);
        Ok(())
    }
}
