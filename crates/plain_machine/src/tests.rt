//! Calls on a machine for files and for what is put out, whose answers are compared.

use crate::machine::PlainMachine;
use call_machine::Machine;
use kernel_objects::Stream;
use lego_base::FileNo;
use std::test::Fail;

#[test]
fn a_file_is_made_and_bytes_are_put_out(rt: HostRuntime) -> Result<(), Fail> {
    let alloc = rt.alloc();
    let mut machine = PlainMachine::new(alloc)?;
    assert!(rt; machine.find(b"f")?.is_none());
    let file = machine.make(b"f")?.unwrap_or(FileNo(7));
    machine.write(file, 1, b"hi")?;
    machine.cut(file, 2)?;
    assert_eq!(rt; machine.size(file)?, 2);
    let bytes = machine.read(alloc, file, 1, 1)?;
    machine.put_out(Stream::Out, bytes.as_slice());
    machine.put_out(Stream::Err, b"x");
    assert!(rt; machine.output().out() == b"h".as_slice());
    assert!(rt; machine.output().err() == b"x".as_slice());
    assert!(rt; !machine.output().is_lost());
    machine.output_mut().clear();
    machine.unlink(b"f")?;
    machine.free(file)?;
    assert!(rt; machine.files().find(b"f").is_none());
    Ok(())
}
