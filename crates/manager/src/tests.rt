//! A family with files and a pipe. An assertion before a call is what the call asks for.

use crate::Manager;
use kernel_objects::{Brk, Waiting};
use lego_base::{Bytes, Exit, FileNo, Pid};
use proc_table::Reaped;
use rv64_step::Cpu;
use std::alloc::Global;
use std::test::Fail;

const ONE: Pid = Pid(1);

const TWO: Pid = Pid(2);

// Registers of a call, by its number and its first argument.
fn call(number: u64, first: u64) -> Cpu {
    let mut x = [0; 32];
    x[10] = first;
    x[17] = number;
    Cpu { pc: 4096, x }
}

// Process 1 with the standard streams and 5 bytes of input.
fn started(alloc: Global) -> Result<Manager, Fail> {
    let brk = Brk {
        base: 8192,
        now: 8192,
    };
    let mut manager = Manager::new(alloc, Bytes::from_slice(alloc, b"input")?)?;
    manager.start(alloc, call(0, 0), brk)?;
    Ok(manager)
}

#[test]
fn a_file_is_left_with_its_last_descriptor(rt: HostRuntime) -> Result<(), Fail> {
    let mut manager = started(rt.alloc())?;
    assert!(rt; manager.lives(ONE));
    assert_eq!(rt; manager.add_file(ONE, FileNo(7), 0), Ok(3));
    assert!(rt; manager.lives(ONE) && manager.last() == 1);
    assert_eq!(rt; manager.fork(rt.alloc(), ONE, call(0, 0)), Ok(TWO));
    assert_eq!(rt; manager.close(ONE, 3), None);
    assert_eq!(rt; manager.close(TWO, 3), Some(FileNo(7)));
    Ok(())
}

#[test]
fn a_reader_waits_while_there_is_a_writer(rt: HostRuntime) -> Result<(), Fail> {
    let mut manager = started(rt.alloc())?;
    assert!(rt; manager.lives(ONE));
    assert_eq!(rt; manager.add_pipe(rt.alloc(), ONE, false), Ok((3, 4)));
    manager.set_cpu(ONE, call(63, 3));
    manager.set_waiting(ONE, Waiting { moved: 0, len: 0 });
    assert_eq!(rt; manager.ready(rt.alloc())?.as_slice(), [].as_slice());
    assert_eq!(rt; manager.close(ONE, 4), None);
    assert_eq!(rt; manager.ready(rt.alloc())?.as_slice(), [ONE].as_slice());
    Ok(())
}

#[test]
fn input_is_taken_in_order(rt: HostRuntime) -> Result<(), Fail> {
    let mut manager = started(rt.alloc())?;
    let mut buf = [0u8; 3];
    assert_eq!(rt; manager.peek_input(&mut buf), 3);
    assert_eq!(rt; manager.take_input(&mut buf), 3);
    assert_eq!(rt; manager.take_input(&mut buf), 2);
    assert_eq!(rt; buf.as_slice(), b"utp".as_slice());
    assert_eq!(rt; manager.input_left(), 0);
    assert_eq!(rt; manager.room(), 1021);
    Ok(())
}

#[test]
fn a_death_is_recorded(rt: HostRuntime) -> Result<(), Fail> {
    let mut manager = started(rt.alloc())?;
    assert!(rt; manager.get(Pid(9)).is_none());
    manager.die(Pid(9), 256)?;
    let exit = Exit {
        pid: Pid(9),
        status: 256,
    };
    assert_eq!(rt; manager.exits(), [exit].as_slice());
    assert_eq!(rt; manager.reap(ONE, -1), Reaped::NoChild);
    assert_eq!(rt; manager.live(), 1);
    Ok(())
}
