//! A family: births, deaths and what parents find.

use crate::{Procs, Reaped, choose};
use fd_table::Fds;
use kernel_objects::{Brk, FdEntry};
use lego_base::Pid;
use rv64_step::Cpu;
use std::test::Fail;

#[test]
fn a_family_is_born_and_dies(rt: HostRuntime) -> Result<(), Fail> {
    let cpu = Cpu {
        pc: 4096,
        x: [0; 32],
    };
    let brk = Brk {
        base: 8192,
        now: 8192,
    };
    let mut procs = Procs::new(rt.alloc())?;
    let fds = Fds::new(rt.alloc())?;
    assert_eq!(rt; procs.spawn(Pid(0), cpu, brk, fds), Ok(Pid(1)));
    let fds = Fds::new(rt.alloc())?;
    assert_eq!(rt; procs.spawn(Pid(1), cpu, brk, fds), Ok(Pid(2)));
    let fds = Fds::new(rt.alloc())?;
    assert_eq!(rt; procs.spawn(Pid(1), cpu, brk, fds), Ok(Pid(3)));
    let fds = Fds::new(rt.alloc())?;
    assert_eq!(rt; procs.spawn(Pid(2), cpu, brk, fds), Ok(Pid(4)));
    assert_eq!(rt; procs.child(Pid(1), -1), Reaped::NotYet);
    procs.die(Pid(2), 256);
    assert_eq!(rt; procs.child(Pid(1), 3), Reaped::NotYet);
    procs.die(Pid(3), 512);
    assert_eq!(rt; procs.reap(Pid(1), -1), Reaped::Child(Pid(2), 256));
    assert_eq!(rt; procs.reap(Pid(1), -1), Reaped::Child(Pid(3), 512));
    assert_eq!(rt; procs.reap(Pid(1), 3), Reaped::NoChild);
    // 4 was a child of 2, and is now one of 1
    assert_eq!(rt; procs.child(Pid(1), -1), Reaped::NotYet);
    assert_eq!(rt; procs.live(), 2);
    let entry = FdEntry {
        desc: 3,
        cloexec: false,
    };
    procs.set_fd(Pid(4), 5, Some(entry));
    assert_eq!(rt; procs.fd(Pid(4), 5), Some(entry));
    assert_eq!(rt; procs.lowest_free(Pid(4), 5), Some(6));
    // an orphan leaves no zombie
    procs.die(Pid(1), 0);
    procs.die(Pid(4), 9);
    assert_eq!(rt; procs.nth(0), None);
    assert_eq!(rt; procs.last(), 4);
    assert_eq!(rt; choose(&[Pid(3), Pid(5)], 7), Some(Pid(5)));
    assert_eq!(rt; choose(&[], 7), None);
    Ok(())
}
