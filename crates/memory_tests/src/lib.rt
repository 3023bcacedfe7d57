// Examples of what a memory disk answers. Each is proved to be safe, and run.
#![tactic(auto)]

#[cfg(test)]
mod tests {
    use device::{Cause, Device, Fault, Home, Kind, Request, fault_at};
    use memory_disk::MemoryDisk;
    use std::process::Abort;
    use std::test::Fail;

    // numbers that name no sector
    const NONE: [u32; 8] = [65536; 8];

    // A request, how many bytes come with it, and what its submit answers.
    type Row = (Request, usize, Result<(), Cause>);

    // A request whose kind is any number, and then one of each kind.
    fn request(tag: u32, kind: u8, first: u32, count: u32) -> Request {
        Request {
            tag,
            kind,
            first,
            count,
        }
    }

    fn read(tag: u32, first: u32, count: u32) -> Request {
        request(tag, Kind::Read.into(), first, count)
    }

    fn write(tag: u32, first: u32, count: u32) -> Request {
        request(tag, Kind::Write.into(), first, count)
    }

    fn flush(tag: u32, first: u32, count: u32) -> Request {
        request(tag, Kind::Flush.into(), first, count)
    }

    // What a submit with so many bytes answers.
    // Its own, and not shared with the other examples: one sends wrong lengths, one serves a step, one sends what is due.
    fn submit<D: Device>(device: &mut D, request: Request, given: usize) -> Result<(), Cause> {
        let data = [7u8; 2048];
        let bytes = &data[..given.min(data.len())];
        device
            .submit(request, bytes, 0)
            .map_err(|refusal| refusal.cause)
    }

    fn submit_all<D: Device>(rt: &impl Abort, device: &mut D, rows: &[Row]) {
        for (request, given, answer) in rows {
            assert_eq!(rt; submit(device, *request, *given), *answer, "at {request:?}");
        }
    }

    // What a collect into so much room answers.
    fn collect<D: Device>(device: &mut D, tag: u32, room: usize) -> Result<u8, Cause> {
        let mut buffer = [9u8; 256];
        let room = room.min(buffer.len());
        device
            .collect(tag, &mut buffer[..room])
            .map_err(|refusal| refusal.cause)
    }

    // Each cause alone, on 8 sectors.
    #[test]
    fn submits_are_refused(rt: HostRuntime) -> Result<(), Fail> {
        let mut bytes = [0u8; 1024];
        let mut disk = MemoryDisk::new(rt.alloc(), &mut bytes, NONE)?;
        submit_all(
            &rt,
            &mut disk,
            &[
                (request(1, 3, 0, 1), 0, Err(Cause::BadKind)),
                (read(1, 0, 0), 0, Err(Cause::BadCount)),
                (write(1, 0, 9), 1152, Err(Cause::BadCount)),
                (flush(1, 1, 0), 0, Err(Cause::BadCount)),
                (flush(1, 0, 1), 0, Err(Cause::BadCount)),
                (read(1, 1, 8), 0, Err(Cause::PastEnd)),
                (read(1, 4294967295, 8), 0, Err(Cause::PastEnd)),
                (write(1, 0, 1), 127, Err(Cause::BadLength)),
                (read(1, 0, 1), 1, Err(Cause::BadLength)),
                (flush(1, 0, 0), 1, Err(Cause::BadLength)),
                (read(1, 0, 8), 0, Ok(())),
                (write(1, 0, 8), 1024, Err(Cause::TagOpen)),
            ],
        );
        Ok(())
    }

    // The smaller number wins: each row breaks all the rules from that of its cause on.
    #[test]
    fn the_smaller_number_wins(rt: HostRuntime) -> Result<(), Fail> {
        let mut bytes = [0u8; 1024];
        let mut disk = MemoryDisk::new(rt.alloc(), &mut bytes, NONE)?;
        submit_all(
            &rt,
            &mut disk,
            &[
                (read(1, 0, 1), 0, Ok(())),
                (write(2, 7, 1), 128, Ok(())),
                (flush(4294967295, 0, 0), 0, Ok(())),
                (read(0, 0, 8), 0, Ok(())),
                (request(1, 255, 9, 9), 1, Err(Cause::BadKind)),
                (write(1, 9, 9), 1, Err(Cause::BadCount)),
                (write(1, 8, 1), 1, Err(Cause::PastEnd)),
                (write(1, 7, 1), 1, Err(Cause::BadLength)),
                (write(1, 7, 1), 128, Err(Cause::TagOpen)),
                (write(3, 7, 1), 128, Err(Cause::Full)),
            ],
        );
        Ok(())
    }

    // A tag that is not open before one that waits before a short buffer, a tag used again after its collect, and buffers of no bytes.
    #[test]
    fn collects_are_refused(rt: HostRuntime) -> Result<(), Fail> {
        let mut bytes = [5u8; 512];
        let mut disk = MemoryDisk::new(rt.alloc(), &mut bytes, NONE)?;
        submit_all(
            &rt,
            &mut disk,
            &[(read(1, 2, 1), 0, Ok(())), (flush(2, 0, 0), 0, Ok(()))],
        );
        assert_eq!(rt; collect(&mut disk, 3, 0), Err(Cause::NotOpen));
        assert_eq!(rt; collect(&mut disk, 1, 0), Err(Cause::Waits));
        assert_eq!(rt; disk.turn(4294967295), 1);
        assert_eq!(rt; collect(&mut disk, 1, 127), Err(Cause::ShortBuffer));
        assert_eq!(rt; collect(&mut disk, 2, 0), Err(Cause::Waits));
        assert_eq!(rt; collect(&mut disk, 1, 128), Ok(0));
        submit_all(&rt, &mut disk, &[(write(1, 3, 1), 128, Ok(()))]);
        assert_eq!(rt; disk.turn(0), 1);
        assert_eq!(rt; collect(&mut disk, 2, 0), Ok(0));
        Ok(())
    }

    // A read's bytes go to the front of the buffer, and its other bytes stay.
    #[test]
    fn the_rest_of_the_buffer_stays(rt: HostRuntime) -> Result<(), Fail> {
        let mut bytes = [5u8; 512];
        let mut disk = MemoryDisk::new(rt.alloc(), &mut bytes, NONE)?;
        let mut buffer = [9u8; 130];
        submit_all(&rt, &mut disk, &[(read(1, 2, 1), 0, Ok(()))]);
        assert_eq!(rt; disk.turn(0), 1);
        assert_eq!(rt; disk.collect(1, &mut buffer), Ok(0));
        assert_eq!(rt; buffer[127], 5);
        assert_eq!(rt; buffer[128], 9);
        Ok(())
    }

    // No sector, a part of one, and more bytes than a device has sectors.
    #[test]
    fn sizes(rt: HostRuntime) -> Result<(), Fail> {
        let mut none = [0u8; 0];
        let mut empty = MemoryDisk::new(rt.alloc(), &mut none, NONE)?;
        assert_eq!(rt; empty.size(), 0);
        submit_all(
            &rt,
            &mut empty,
            &[
                (read(1, 0, 1), 0, Err(Cause::PastEnd)),
                (flush(1, 0, 0), 0, Ok(())),
            ],
        );
        let mut part = [0u8; 255];
        assert_eq!(rt; MemoryDisk::new(rt.alloc(), &mut part, NONE)?.size(), 1);
        let mut whole = vec![in rt.alloc(); 0u8; 8388735]?;
        let mut disk = MemoryDisk::new(rt.alloc(), whole.as_mut_slice(), NONE)?;
        assert_eq!(rt; disk.size(), 65536);
        submit_all(
            &rt,
            &mut disk,
            &[
                (write(1, 65528, 8), 1024, Ok(())),
                (read(2, 65529, 8), 0, Err(Cause::PastEnd)),
            ],
        );
        assert_eq!(rt; disk.turn(0), 1);
        drop(disk);
        assert!(rt; whole.len() == 8388735);
        assert_eq!(rt; whole[8388607], 7);
        assert_eq!(rt; whole[8388608], 0);
        Ok(())
    }

    // A number above the last sector still marks none where the bytes hold more sectors than a device has.
    #[test]
    fn larger_memory(rt: HostRuntime) -> Result<(), Fail> {
        let mut whole = vec![in rt.alloc(); 0u8; 8388736]?;
        let disk = MemoryDisk::new(rt.alloc(), whole.as_mut_slice(), NONE)?;
        assert_eq!(rt; disk.size(), 65536);
        assert_eq!(rt; disk.home(65536), None);
        Ok(())
    }

    // All eight numbers name bad sectors: the mask is full, the bytes stay, and a read shows zeros.
    #[test]
    fn eight_bad_sectors(rt: HostRuntime) -> Result<(), Fail> {
        let mut bytes = [5u8; 1280];
        let mut disk = MemoryDisk::new(rt.alloc(), &mut bytes, [8, 1, 2, 3, 4, 5, 6, 7])?;
        let mut buffer = [9u8; 1024];
        submit_all(
            &rt,
            &mut disk,
            &[(write(1, 1, 8), 1024, Ok(())), (read(2, 2, 8), 0, Ok(()))],
        );
        assert_eq!(rt; disk.turn(0), 1);
        assert_eq!(rt; disk.turn(0), 1);
        assert_eq!(rt; disk.collect(1, &mut []), Ok(255));
        assert_eq!(rt; disk.collect(2, &mut buffer), Ok(127));
        assert_eq!(rt; buffer[895], 0);
        assert_eq!(rt; buffer[896], 5);
        drop(disk);
        assert_eq!(rt; bytes[128], 5);
        Ok(())
    }

    // The lowest bad sector's home and the number of bad ones, also past the end.
    #[test]
    fn faults(rt: HostRuntime) -> Result<(), Fail> {
        let mut bytes = [0u8; 1280];
        let disk = MemoryDisk::new(rt.alloc(), &mut bytes, NONE)?;
        assert_eq!(rt; fault_at(&disk, 0, 0), None);
        let home = Home {
            height: 0,
            sector: 5,
        };
        let inside = Fault {
            lowest: Some(home),
            bad: 3,
        };
        assert_eq!(rt; fault_at(&disk, 3, 0b1010_0100), Some(inside));
        let past = Fault {
            lowest: None,
            bad: 1,
        };
        assert_eq!(rt; fault_at(&disk, 4294967295, 128), Some(past));
        Ok(())
    }
}
