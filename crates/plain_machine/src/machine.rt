//! Flat spaces and files.
ghost use Rattle.std.specs.Prelude.{◌≡◌, IfOk};
ghost use Rattle.call_machine.specs.Tried.{bare};
ghost use Rattle.plain_machine.specs.Shown.{blank};

use crate::output::Output;
use area_list::Areas;
use call_machine::Machine;
use flat_memory::FlatMemory;
use kernel_objects::Stream;
use lego_base::{Bytes, FileNo, Halt, MemStop, NoMemory, Pid, Vpn};
use plain_files::PlainFiles;
use std::alloc::Global;

/// Spaces by pid, files with names, and what was put out and isn't written yet.
#[derive(Drop)]
pub struct PlainMachine {
    memory: FlatMemory,
    files: PlainFiles,
    output: Output,
}

impl PlainMachine {
    ghost use Rattle.std.specs.Borrow.{sem};
    ghost use Rattle.plain_machine.specs.Plain.{held_of, LendsMemory, LendsOutput};

    /// No space, and no file.
    pub fn new(alloc: Global) -> Result<PlainMachine, NoMemory>
        ensures held { IfOk result (λ machine. held_of machine ≡ bare) }
        ensures output { IfOk result (λ machine. machine.output ≡ blank) }
    {
        Ok(PlainMachine {
            memory: FlatMemory::new(alloc)?,
            files: PlainFiles::new(alloc),
            output: Output::new(alloc),
        })
    }

    /// The memory, for the instructions of a turn.
    pub fn memory_mut(&mut self) -> &mut FlatMemory
        ensures* lends { sem 𝓛 (LendsMemory self.entry result) }
        ensures memory { result.now ≡ self.old.memory }
    {
        &mut self.memory
    }

    /// What was put out and isn't written yet.
    pub fn output(&self) -> &Output
        ensures { result.now ≡ self.now.output }
    {
        &self.output
    }

    /// The same, to be forgotten once it is written.
    pub fn output_mut(&mut self) -> &mut Output
        ensures* lends { sem 𝓛 (LendsOutput self.entry result) }
        ensures output { result.now ≡ self.old.output }
    {
        &mut self.output
    }

    /// The files.
    pub fn files(&self) -> &PlainFiles
        ensures { result.now ≡ self.now.files }
    {
        &self.files
    }
}

impl Machine for PlainMachine {
    ghost use Rattle.plain_machine.specs.Plain.{held_of, Did, Stopped};
    ghost use Rattle.plain_machine.specs.Lawful.{lawful};

    ghost held = { held_of };

    ghost does = { Did };

    ghost stops = { Stopped };

    fn check_span(&mut self, pid: Pid, at: u64, len: u64, need: u8) -> Result<bool, Halt> {
        Ok(self.memory.permits(pid, need, at, len))
    }

    fn areas(&mut self, alloc: Global, pid: Pid) -> Result<Areas, Halt> {
        match self.memory.areas(alloc, pid) {
            Ok(areas) => Ok(areas),
            Err(_) => Err(Halt::NoMemory),
        }
    }

    fn copy_in(
        &mut self,
        alloc: Global,
        pid: Pid,
        at: u64,
        len: u64,
    ) -> Result<Option<Bytes>, Halt> {
        match self.memory.copy_in(alloc, pid, at, len) {
            Ok(bytes) => Ok(Some(bytes)),
            Err(MemStop::Segv) => Ok(None),
            Err(MemStop::Halt(halt)) => Err(halt),
        }
    }

    fn copy_out(&mut self, pid: Pid, at: u64, bytes: &[u8]) -> Result<(), Halt> {
        match self.memory.copy_out(pid, at, bytes) {
            Ok(()) => Ok(()),
            Err(MemStop::Segv) => unreachable!(),
            Err(MemStop::Halt(halt)) => Err(halt),
        }
    }

    fn map(&mut self, pid: Pid, areas: Areas) -> Result<(), Halt> {
        match self.memory.set_areas(pid, areas) {
            Ok(()) => Ok(()),
            Err(_) => Err(Halt::NoMemory),
        }
    }

    fn protect(&mut self, pid: Pid, _first: Vpn, _pages: u64, areas: Areas) -> Result<(), Halt> {
        match self.memory.set_areas(pid, areas) {
            Ok(()) => Ok(()),
            Err(_) => Err(Halt::NoMemory),
        }
    }

    fn unmap(&mut self, pid: Pid, first: Vpn, pages: u64) -> Result<(), Halt> {
        match self.memory.unmap(pid, first, pages) {
            Ok(()) => Ok(()),
            Err(_) => Err(Halt::NoMemory),
        }
    }

    fn fill(&mut self, pid: Pid, at: u64, bytes: &[u8]) -> Result<(), Halt> {
        match self.memory.fill_page(pid, at, bytes) {
            Ok(()) => Ok(()),
            Err(_) => Err(Halt::NoMemory),
        }
    }

    fn copy_space(&mut self, parent: Pid, child: Pid) -> Result<(), Halt> {
        match self.memory.copy_space(parent, child) {
            Ok(()) => Ok(()),
            Err(_) => Err(Halt::NoMemory),
        }
    }

    fn drop_space(&mut self, pid: Pid) -> Result<(), Halt> {
        self.memory.drop_space(pid);
        Ok(())
    }

    fn find(&mut self, name: &[u8]) -> Result<Option<FileNo>, Halt> {
        Ok(self.files.find(name))
    }

    fn make(&mut self, name: &[u8]) -> Result<Option<FileNo>, Halt> {
        match self.files.make(name) {
            Ok(file) => Ok(file),
            Err(_) => Err(Halt::NoMemory),
        }
    }

    fn unlink(&mut self, name: &[u8]) -> Result<(), Halt> {
        self.files.unlink(name);
        Ok(())
    }

    fn free(&mut self, file: FileNo) -> Result<(), Halt> {
        self.files.free(file);
        Ok(())
    }

    fn size(&mut self, file: FileNo) -> Result<u64, Halt> {
        Ok(self.files.size(file))
    }

    fn read(&mut self, alloc: Global, file: FileNo, off: u64, len: u64) -> Result<Bytes, Halt> {
        match self.files.read(alloc, file, off, len) {
            Ok(bytes) => Ok(bytes),
            Err(_) => Err(Halt::NoMemory),
        }
    }

    fn write(&mut self, file: FileNo, off: u64, bytes: &[u8]) -> Result<(), Halt> {
        match self.files.write(file, off, bytes) {
            Ok(()) => Ok(()),
            Err(_) => Err(Halt::NoMemory),
        }
    }

    fn cut(&mut self, file: FileNo, size: u64) -> Result<(), Halt> {
        match self.files.cut(file, size) {
            Ok(()) => Ok(()),
            Err(_) => Err(Halt::NoMemory),
        }
    }

    fn put_out(&mut self, stream: Stream, bytes: &[u8]) {
        self.output.put(stream, bytes);
    }

    ghost lawful = { lawful };
}
