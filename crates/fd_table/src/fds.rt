//! A table of descriptors.

ghost use Rattle.std.specs.Prelude.{◌≡◌, ◌<◌, None, IfOk, IfSome, length, replicate, slice_set};
ghost use Rattle.kernel_objects.specs.Slots.{lowest_free, slot};

use kernel_objects::FdEntry;
use lego_base::NoMemory;
use std::alloc::Global;
use std::marker::Model;

/// Descriptors of a process: the limit that Linux calls RLIMIT_NOFILE.
pub const DESCRIPTORS: u32 = 64;

/// The descriptors of a process, from 0 to 63. Contracts see the list of what each is: an entry, or `None` where it is free.
#[derive(Drop)]
pub struct Fds {
    slots: Vec<Option<FdEntry>>, // `DESCRIPTORS` of them
}

impl Model for Fds {
    ghost use Rattle.std.specs.Prelude.{◌≡◌, List, Option, length};
    ghost use Rattle.kernel_objects.specs.declared.descriptor.FdEntry.{FdEntry};
    ghost use Rattle.fd_table.specs.declared.fds.TheConstants.{DESCRIPTORS};

    ghost Value = { List (Option FdEntry) };

    ghost view = { λ f. f.slots.items };

    ghost invariant = { λ f. length f.slots.items ≡ DESCRIPTORS };
}

impl Fds {
    /// All descriptors free.
    pub fn new(alloc: Global) -> Result<Fds, NoMemory>
        ensures { IfOk result (λ f. f ≡ replicate DESCRIPTORS None) }
    {
        let slots = vec![in alloc; None; DESCRIPTORS as usize]?;
        Ok(Fds { slots })
    }

    /// The lowest descriptor that is free, not below `from`.
    pub fn lowest_free(&self, from: u32) -> Option<u32>
        ensures free { result ≡ lowest_free self.now from }
        ensures within { IfSome result (λ fd. fd < DESCRIPTORS) }
    {
        for fd in from..DESCRIPTORS {
            if self.slots[fd as usize].is_none() {
                return Some(fd);
            }
        }
        None
    }

    /// What a descriptor is; `None` where it is free or isn't one.
    pub fn get(&self, fd: u64) -> Option<FdEntry>
        ensures { result ≡ slot self.now fd }
    {
        *self.slots.get(fd as usize)?
    }

    /// Opens, changes or closes a descriptor.
    pub fn set(&mut self, fd: u32, entry: Option<FdEntry>)
        requires { fd < DESCRIPTORS }
        ensures { self.new ≡ slice_set self.old fd entry }
    {
        self.slots[fd as usize] = entry;
    }

    /// The same descriptors for a child, as fork(2) gives them.
    pub fn copy(&self, alloc: Global) -> Result<Fds, NoMemory>
        ensures { IfOk result (λ f. f ≡ self.now) }
    {
        let slots = Vec::from_clones(alloc, self.slots.as_slice())?;
        Ok(Fds { slots })
    }
}
