//! A memory of a few pages, at its edges.
use area_list::Areas;
use flat_memory::FlatMemory;
use lego_base::{MemStop, Perms, Pid, Vpn};
use rv64_step::{GuestMem, Width};
use std::alloc::Global;
use std::test::Fail;

// Pages 16 and 17 may be read and written, 18 read and fetched, 19 isn't mapped, 20 may be written, and the last
// page of the addresses read.
fn ready(alloc: Global) -> Result<FlatMemory, Fail> {
    let mut areas = Areas::new(alloc)?;
    areas.put(Vpn(16), 2, Perms::READ | Perms::WRITE)?;
    areas.put(Vpn(18), 1, Perms::READ | Perms::EXEC)?;
    areas.put(Vpn(20), 1, Perms::WRITE)?;
    areas.put(Vpn((1 << 26) - 1), 1, Perms::READ)?;
    let mut memory = FlatMemory::new(alloc)?;
    memory.create(Pid(2), areas)?;
    Ok(memory)
}

// A load of a process in a turn of its own.
fn load(
    memory: &mut FlatMemory,
    pid: Pid,
    addr: u64,
    width: Width,
) -> Result<Result<u64, MemStop>, Fail> {
    let mut space = memory.take(pid)?;
    let answer = space.load(pid, addr, width);
    memory.put(space)?;
    Ok(answer)
}

// A store of a process in a turn of its own.
fn store(
    memory: &mut FlatMemory,
    pid: Pid,
    addr: u64,
    width: Width,
    value: u64,
) -> Result<Result<(), MemStop>, Fail> {
    let mut space = memory.take(pid)?;
    let answer = space.store(pid, addr, width, value);
    memory.put(space)?;
    Ok(answer)
}

// A fetch of a process in a turn of its own.
fn fetch(memory: &mut FlatMemory, pid: Pid, addr: u64) -> Result<Result<u32, MemStop>, Fail> {
    let mut space = memory.take(pid)?;
    let answer = space.fetch(pid, addr);
    memory.put(space)?;
    Ok(answer)
}

#[test]
fn loads_and_stores_go_by_each_byte(rt: HostRuntime) -> Result<(), Fail> {
    let mut memory = ready(rt.alloc())?;
    let segv = Err(MemStop::Segv);
    assert_eq!(rt; load(&mut memory, Pid(2), 0x10000, Width::Double)?, Ok(0));
    // The address, the bytes, and whether they may be stored.
    let stores: [(u64, Width, bool); 8] = [
        (0x10001, Width::Double, true),
        (0x10ffd, Width::Word, true),
        (0x11fff, Width::Byte, true),
        (0x11fff, Width::Half, false),
        (0x12000, Width::Double, false),
        (0x14ff8, Width::Double, true),
        (0x14ffd, Width::Word, false),
        (0xffff_ffff_ffff_fffc, Width::Double, false),
    ];
    for (addr, width, may) in stores {
        let answer = if may { Ok(()) } else { segv };
        assert_eq!(rt;
            store(&mut memory, Pid(2), addr, width, 0x8877_6655_4433_2211)?,
            answer
        );
    }
    // The address, the bytes, and the number that is there, if they may be loaded.
    let loads: [(u64, Width, Option<u64>); 12] = [
        (0x10000, Width::Double, Some(0x7766_5544_3322_1100)),
        (0x10008, Width::Word, Some(0x88)),
        (0x10003, Width::Half, Some(0x4433)),
        (0x10ff8, Width::Double, Some(0x3322_1100_0000_0000)),
        (0x11000, Width::Byte, Some(0x44)),
        (0x10ffe, Width::Word, Some(0x0044_3322)),
        (0x11ffc, Width::Double, Some(0x1100_0000)),
        (0x12ffd, Width::Word, None),
        (0x14000, Width::Byte, None),
        (0x3f_ffff_fff8, Width::Double, Some(0)),
        (0x3f_ffff_fffc, Width::Double, None),
        (0x40_0000_0000, Width::Byte, None),
    ];
    for (addr, width, number) in loads {
        let answer = match number {
            Some(number) => Ok(number),
            None => Err(MemStop::Segv),
        };
        assert_eq!(rt; load(&mut memory, Pid(2), addr, width)?, answer);
    }
    assert_eq!(rt;
        load(&mut memory, Pid(1), 0x10000, Width::Byte)?,
        Err(MemStop::Segv)
    );
    assert_eq!(rt; store(&mut memory, Pid(3), 0x10000, Width::Byte, 1)?, segv);
    Ok(())
}

#[test]
fn bytes_are_filled_fetched_and_copied(rt: HostRuntime) -> Result<(), Fail> {
    let mut memory = ready(rt.alloc())?;
    memory.fill(Pid(2), 0x11ffd, b"abcdef")?;
    memory.fill(Pid(3), 0x12000, b"other")?;
    assert_eq!(rt; fetch(&mut memory, Pid(2), 0x12000)?, Ok(0x0066_6564));
    assert_eq!(rt; fetch(&mut memory, Pid(2), 0x12ffe)?, Err(MemStop::Segv));
    assert_eq!(rt; fetch(&mut memory, Pid(2), 0x11ffd)?, Err(MemStop::Segv));
    assert_eq!(rt; fetch(&mut memory, Pid(3), 0x12000)?, Err(MemStop::Segv));
    let copy = memory.copy_in(rt.alloc(), Pid(2), 0x11ffc, 8);
    match copy {
        Ok(bytes) => assert_eq!(rt; bytes.as_slice(), b"\0abcdef\0".as_slice()),
        Err(_) => assert!(rt; false),
    }
    assert!(rt; memory.copy_in(rt.alloc(), Pid(2), 0x12ff8, 9).is_err());
    assert!(rt;
        memory
            .copy_in(rt.alloc(), Pid(2), 0x40_0000_0000, 1)
            .is_err()
    );
    assert!(rt;
        memory
            .copy_in(rt.alloc(), Pid(9), 0x40_0000_0000, 0)
            .is_ok()
    );
    let mut areas = Areas::new(rt.alloc())?;
    areas.put(Vpn(17), 2, Perms::READ)?;
    memory.create(Pid(2), areas)?;
    assert_eq!(rt; load(&mut memory, Pid(2), 0x11ffd, Width::Double)?, Ok(0));
    assert_eq!(rt; fetch(&mut memory, Pid(2), 0x12000)?, Err(MemStop::Segv));
    Ok(())
}
