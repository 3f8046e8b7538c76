//! The manager.

mod ready;

ghost use Rattle.std.specs.Prelude.{◌≡◌, ◌==◌, ◌+◌, ◌-◌, ◌^◌, ◌<◌, ◌≤◌, ◌++◌, ℕ, [], ◌∷◌, true, false, Some, None, drop, filter, is_some, length, min, nat_le, nat_lt, option_and_then, option_map, slice_index, slice_set, take, IfOk, IfSome, OnErr, OnOk};
ghost use Rattle.fd_table.specs.declared.fds.TheConstants.{DESCRIPTORS};
ghost use Rattle.kernel_objects.specs.Slots.{held, holds_some, lowest_free, next_slot, picks, slot, with_next};
ghost use Rattle.linux_model.specs.Descriptors.{closing, opened};
ghost use Rattle.linux_model.specs.Effects.{at_fd, bytes_in_pipe, Breaks, Closes, Dies, Forks, Goes, Keeps, Opens, PutsPipe, Returns, Seeks, Shares, Starts, Takes, TakesPipe};
ghost use Rattle.linux_model.specs.Limits.{has, DESCRIPTIONS, PIPE_BYTES, PROCESSES};
ghost use Rattle.linux_model.specs.Managed.{managed_after, managed_after_all, managed_in, with_managed};
ghost use Rattle.linux_model.specs.Processes.{at_pid, fds_of, first_process, has_file, has_reader, has_writer, is_live, no_descriptors, process};
ghost use Rattle.linux_model.specs.State.{Kernel, Process, unbooted};
ghost use Rattle.proc_table.specs.Entries.{child_for, proc_of};
ghost use Rattle.kernel_objects.specs.declared.descriptor.Object.TheVariants.{Regular};
ghost use Rattle.manager.specs.Sound.{Counted};
ghost use Rattle.manager.specs.Tables.{PipeThere};
ghost use Rattle.manager.specs.Words.{after_reaped, entry_of, fd_for_one, fds_for_two, file_left, frees, is_alive, is_too_many, limit_of, open_of, pipe_effects, start_effects, stream_effects, table_of};

use crate::descs::Descs;
use crate::fault::{FdFault, SpawnFault};
use crate::input::Input;
use crate::pipes::{PipeState, Pipes};
use fd_table::Fds;
use kernel_objects::{Brk, Description, FdEntry, Object, Stream, Waiting};
use lego_base::{Bytes, Exit, FileNo, NoMemory, Pid};
use proc_table::{Proc, Procs, Reaped};
use rv64_step::Cpu;
use std::alloc::Global;
use std::marker::Model;

// Flags of open(2).
const O_WRONLY: u32 = 1;

const O_CLOEXEC: u32 = 0x80000;

/// What a descriptor is open on.
#[derive(Clone, Copy, Debug, PartialEq, Eq)]
pub struct Opened {
    /// The description's slot, below 1024.
    pub desc: u16,
    pub is: Description,
    /// Whether execve(2) closes the descriptor.
    pub cloexec: bool,
}

/// The processes with their descriptors, the descriptions, the pipes, what is left of standard input, and the exits.
#[derive(Drop)]
pub struct Manager {
    procs: Procs,
    descs: Descs,
    pipes: Pipes,
    input: Input,
    exits: Vec<Exit>,
}

impl Model for Manager {
    ghost use Rattle.linux_model.specs.Managed.{Managed};
    ghost use Rattle.manager.specs.Sound.{Sound};

    ghost Value = { Managed };

    ghost view = { λ m. record { procs = m.procs.procs; last = m.procs.last; descs = m.descs.descs; pipes = m.pipes.pipes; input = m.input; exits = m.exits.items } };

    ghost invariant = { λ m. Sound m.procs m.descs m.pipes };
}

impl Manager {
    /// No process, and this on standard input. Takes the memory for all tables.
    pub fn new(alloc: Global, input: Bytes) -> Result<Manager, NoMemory>
        ensures { IfOk result (λ m. m ≡ managed_in (unbooted input)) }
    {
        let procs = Procs::new(alloc)?;
        let descs = Descs::new(alloc)?;
        let pipes = Pipes::new(alloc)?;
        Ok(Manager {
            procs,
            descs,
            pipes,
            input: Input::new(input),
            exits: Vec::new(alloc),
        })
    }

    /// How many processes live.
    pub fn live(&self) -> u32
        ensures { result ≡ length (filter (λ p. is_live p.state) self.now.procs) }
    {
        self.procs.live()
    }

    /// Whether there is room for no further process: there are at most 64, zombies counted.
    pub fn is_full(&self) -> bool
        ensures { result ≡ nat_le PROCESSES (length self.now.procs) }
    {
        self.procs.is_full()
    }

    /// The pid that was given last; 0 before the first.
    pub fn last(&self) -> u32
        ensures { result ≡ self.now.last }
    {
        self.procs.last()
    }

    /// What is known of a process; `None` exactly where it isn't there.
    pub fn get(&self, pid: Pid) -> Option<Proc>
        ensures { result ≡ option_map proc_of (process self.now.procs pid.0) }
    {
        self.procs.get(pid)
    }

    /// Whether a process lives.
    pub fn lives(&self, pid: Pid) -> bool
        ensures { result ≡ is_alive pid.0 self.now }
    {
        match self.procs.get(pid) {
            Some(known) => known.status.is_none(),
            None => false,
        }
    }

    /// The parent of a process that lives; 0 where it has none.
    pub fn parent(&self, pid: Pid) -> Pid
        requires { is_alive pid.0 self.now ≡ true }
        ensures { IfSome (process self.now.procs pid.0) (λ p. result.0 ≡ p.parent) }
    {
        self.known(pid).parent
    }

    /// The registers of a process that lives.
    pub fn cpu(&self, pid: Pid) -> Cpu
        requires { is_alive pid.0 self.now ≡ true }
        ensures { IfSome (process self.now.procs pid.0) (λ p. result ≡ p.cpu) }
    {
        self.known(pid).cpu
    }

    /// The break of a process that lives.
    pub fn brk(&self, pid: Pid) -> Brk
        requires { is_alive pid.0 self.now ≡ true }
        ensures { IfSome (process self.now.procs pid.0) (λ p. result ≡ p.brk) }
    {
        self.known(pid).brk
    }

    /// What is kept of the call of a process that lives, where it waits.
    pub fn waiting(&self, pid: Pid) -> Option<Waiting>
        requires { is_alive pid.0 self.now ≡ true }
        ensures { IfSome (process self.now.procs pid.0) (λ p. result ≡ p.waiting) }
    {
        self.known(pid).waiting
    }

    // What is known of a process that lives.
    fn known(&self, pid: Pid) -> Proc
        requires { is_alive pid.0 self.now ≡ true }
        ensures { IfSome (process self.now.procs pid.0) (λ p. result ≡ proc_of p) }
    {
        match self.procs.get(pid) {
            Some(known) => known,
            None => unreachable!(), // it lives
        }
    }

    /// The registers of a process after an instruction.
    pub fn set_cpu(&mut self, pid: Pid, cpu: Cpu)
        ensures { self.new ≡ managed_after (Goes pid.0 cpu) self.old }
    {
        self.procs.set_cpu(pid, cpu);
    }

    /// The registers of a process after a call, which doesn't wait any more.
    pub fn returns(&mut self, pid: Pid, cpu: Cpu)
        ensures { self.new ≡ managed_after (Returns pid.0 cpu) self.old }
    {
        self.procs.set_cpu(pid, cpu);
        self.procs.set_waiting(pid, None);
    }

    /// The break of a process, as in brk(2).
    pub fn set_brk(&mut self, pid: Pid, brk: Brk)
        ensures { self.new ≡ managed_after (Breaks pid.0 brk.base brk.now) self.old }
    {
        self.procs.set_brk(pid, brk);
    }

    /// The call of a process waits.
    pub fn set_waiting(&mut self, pid: Pid, waiting: Waiting)
        ensures { self.new ≡ managed_after (Keeps pid.0 waiting.moved waiting.len) self.old }
    {
        self.procs.set_waiting(pid, Some(waiting));
    }

    /// What a descriptor of a process is open on; `None` exactly where it isn't open. The descriptor is below 64, and the
    /// description is there, as is the pipe of an end.
    pub fn opened(&self, pid: Pid, fd: u64) -> Option<Opened>
        ensures entry { option_map entry_of result ≡ slot (fds_of (process self.now.procs pid.0)) fd }
        ensures is { (k : Kernel) → option_map open_of result ≡ option_and_then (λ p. opened p fd (with_managed self.now k)) (process self.now.procs pid.0) }
        ensures within { IfSome result (λ o. fd < DESCRIPTORS) }
        ensures there { IfSome result (λ o. slot self.now.descs o.desc ≡ Some o.is) }
        ensures pipe { IfSome result (λ o. PipeThere self.now.pipes o.is.object) }
    {
        let entry = self.procs.fd(pid, fd)?;
        let description = self.descs.get(entry.desc)?;
        Some(Opened {
            desc: entry.desc,
            is: description,
            cloexec: entry.cloexec,
        })
    }

    /// The lowest free descriptor of a process, not below `from`.
    pub fn lowest_free(&self, pid: Pid, from: u32) -> Option<u32>
        ensures free { result ≡ lowest_free (fds_of (process self.now.procs pid.0)) from }
        ensures within { IfSome result (λ fd. fd < DESCRIPTORS) }
    {
        self.procs.lowest_free(pid, from)
    }

    /// How many more descriptions may be open: there are at most 1024.
    pub fn room(&self) -> u32
        ensures { result ≡ DESCRIPTIONS - length (held self.now.descs) }
    {
        self.descs.room()
    }

    /// The offset of a description that is there becomes this.
    pub fn set_offset(&mut self, desc: u16, offset: u64)
        requires { is_some (slot self.old.descs desc) ≡ true }
        ensures { self.new ≡ managed_after (Seeks desc offset) self.old }
    {
        self.descs.seek(desc, offset);
    }

    /// Whether a description is open on a file.
    pub fn has_file(&self, file: FileNo) -> bool
        ensures { result ≡ has_file file.0 self.now.descs }
    {
        self.descs.has_file(file)
    }

    /// What is in a pipe that is there, and who has it open.
    pub fn pipe_state(&self, pipe: u16) -> PipeState
        requires { is_some (slot self.now.pipes pipe) ≡ true }
        ensures len { result.len ≡ length (bytes_in_pipe (slot self.now.pipes pipe)) }
        ensures room { result.room ≡ PIPE_BYTES - length (bytes_in_pipe (slot self.now.pipes pipe)) }
        ensures readers { nat_lt 0 result.readers ≡ has_reader pipe self.now.descs }
        ensures writers { nat_lt 0 result.writers ≡ has_writer pipe self.now.descs }
    {
        self.pipes.state(pipe)
    }

    /// Puts the first of some bytes into a pipe that is there, as many as fit, and returns how many these are.
    pub fn pipe_put(&mut self, pipe: u16, bytes: &[u8]) -> usize
        requires { is_some (slot self.old.pipes pipe) ≡ true }
        ensures count { result ≡ min (length bytes.now) (PIPE_BYTES - length (bytes_in_pipe (slot self.old.pipes pipe))) }
        ensures put { self.new ≡ managed_after (PutsPipe pipe (take result bytes.now)) self.old }
    {
        self.pipes.put(pipe, bytes)
    }

    /// Takes the oldest bytes out of a pipe that is there, as many as there are and as the buffer holds, and returns how many
    /// these are. The rest of the buffer stays as it is.
    pub fn pipe_take(&mut self, pipe: u16, buf: &mut [u8]) -> usize
        requires { is_some (slot self.old.pipes pipe) ≡ true }
        ensures count { result ≡ min (length buf.old) (length (bytes_in_pipe (slot self.old.pipes pipe))) }
        ensures buf { buf.new ≡ take result (bytes_in_pipe (slot self.old.pipes pipe)) ++ drop result buf.old }
        ensures taken { self.new ≡ managed_after (TakesPipe pipe result) self.old }
    {
        self.pipes.take(pipe, buf)
    }

    /// Copies the bytes that `pipe_take` would take, and leaves them in.
    pub fn pipe_peek(&self, pipe: u16, buf: &mut [u8]) -> usize
        requires { is_some (slot self.now.pipes pipe) ≡ true }
        ensures count { result ≡ min (length buf.old) (length (bytes_in_pipe (slot self.now.pipes pipe))) }
        ensures buf { buf.new ≡ take result (bytes_in_pipe (slot self.now.pipes pipe)) ++ drop result buf.old }
    {
        self.pipes.peek(pipe, buf)
    }

    /// How many bytes of standard input are left.
    pub fn input_left(&self) -> usize
        ensures { result ≡ length self.now.input }
    {
        self.input.left()
    }

    /// Takes the next bytes of standard input, as many as there are and as the buffer holds, and returns how many these are.
    /// The rest of the buffer stays as it is.
    pub fn take_input(&mut self, buf: &mut [u8]) -> usize
        ensures count { result ≡ min (length buf.old) (length self.old.input) }
        ensures buf { buf.new ≡ take result self.old.input ++ drop result buf.old }
        ensures taken { self.new ≡ managed_after (Takes result) self.old }
    {
        self.input.take(buf)
    }

    /// Copies the bytes that `take_input` would take, and leaves them.
    pub fn peek_input(&self, buf: &mut [u8]) -> usize
        ensures count { result ≡ min (length buf.old) (length self.now.input) }
        ensures buf { buf.new ≡ take result self.now.input ++ drop result buf.old }
    {
        self.input.peek(buf)
    }

    /// A free descriptor of a process that lives gets the description of another one, as dup(2) and dup3(2) share it.
    pub fn dup(&mut self, pid: Pid, from: u64, to: u32, cloexec: bool)
        requires alive { is_alive pid.0 self.old ≡ true }
        requires from { is_some (slot (fds_of (process self.old.procs pid.0)) from) ≡ true }
        requires to { to < DESCRIPTORS }
        requires free { slot (fds_of (process self.old.procs pid.0)) to ≡ None }
        ensures { IfSome (slot (fds_of (process self.old.procs pid.0)) from) (λ e. self.new ≡ managed_after (Shares pid.0 to e.desc cloexec) self.old) }
    {
        if let Some(entry) = self.procs.fd(pid, from) {
            self.descs.share(entry.desc);
            let shared = FdEntry {
                desc: entry.desc,
                cloexec,
            };
            self.procs.set_fd(pid, to, Some(shared));
        }
    }

    /// A new description, at offset 0, of an object with the flags of open(2), for a free descriptor of a process that lives.
    pub fn open(&mut self, pid: Pid, fd: u32, object: Object, flags: u32, cloexec: bool)
        requires alive { is_alive pid.0 self.old ≡ true }
        requires fd { fd < DESCRIPTORS }
        requires free { slot (fds_of (process self.old.procs pid.0)) fd ≡ None }
        requires pipe { PipeThere self.old.pipes object }
        requires room { length (held self.old.descs) < DESCRIPTIONS }
        ensures { self.new ≡ managed_after (Opens pid.0 fd object flags cloexec) self.old }
    {
        let description = Description {
            object,
            offset: 0,
            flags,
        };
        open_in(
            &mut self.procs,
            &mut self.descs,
            &mut self.pipes,
            pid,
            fd,
            description,
            cloexec,
        );
    }

    /// A new description of a file, for the lowest free descriptor of a process that lives, as open(2) makes it.
    pub fn add_file(&mut self, pid: Pid, file: FileNo, flags: u32) -> Result<u32, FdFault>
        requires { is_alive pid.0 self.old ≡ true }
        ensures fd { result ≡ fd_for_one pid.0 self.old }
        ensures ok { IfOk result (λ fd. self.new ≡ managed_after (Opens pid.0 fd (Regular file) flags (has flags O_CLOEXEC)) self.old) }
        ensures err { OnErr result (self.new ≡ self.old) }
    {
        let fd = self.procs.lowest_free(pid, 0).ok_or(FdFault::Emfile)?;
        if self.descs.room() < 1 {
            return Err(FdFault::Enfile);
        }
        let cloexec = flags & O_CLOEXEC == O_CLOEXEC;
        self.open(pid, fd, Object::Regular(file), flags, cloexec);
        Ok(fd)
    }

    /// A new pipe, as pipe2(2) makes it: the two lowest free descriptors of a process that lives, the one for reading first.
    pub fn add_pipe(
        &mut self,
        alloc: Global,
        pid: Pid,
        cloexec: bool,
    ) -> Result<(u32, u32), FdFault>
        requires { is_alive pid.0 self.old ≡ true }
        ensures fds { IfOk result (λ fds. fds_for_two pid.0 self.old ≡ Ok fds) }
        ensures ok { IfOk result (λ fds. self.new ≡ managed_after_all (pipe_effects pid.0 fds cloexec self.old) self.old) }
        ensures limit { limit_of result ≡ limit_of (fds_for_two pid.0 self.old) }
        ensures err { OnErr result (self.new ≡ self.old) }
    {
        let (reading, writing) = self.two_free(pid)?;
        self.make_pipe(alloc, pid, reading, writing, cloexec)?;
        Ok((reading, writing))
    }

    // The two lowest free descriptors, where as many descriptions are left.
    fn two_free(&self, pid: Pid) -> Result<(u32, u32), FdFault>
        ensures fds { result ≡ fds_for_two pid.0 self.now }
        ensures within { IfOk result (λ fds. fds.1 < DESCRIPTORS) }
    {
        let reading = self.procs.lowest_free(pid, 0).ok_or(FdFault::Emfile)?;
        let writing = self
            .procs
            .lowest_free(pid, reading + 1)
            .ok_or(FdFault::Emfile)?;
        if self.descs.room() < 2 {
            return Err(FdFault::Enfile);
        }
        Ok((reading, writing))
    }

    // A pipe with its ends at two free descriptors.
    fn make_pipe(
        &mut self,
        alloc: Global,
        pid: Pid,
        reading: u32,
        writing: u32,
        cloexec: bool,
    ) -> Result<(), NoMemory>
        requires alive { is_alive pid.0 self.old ≡ true }
        requires reading { slot (fds_of (process self.old.procs pid.0)) reading ≡ None }
        requires writing { slot (fds_of (process self.old.procs pid.0)) writing ≡ None }
        requires order { reading < writing }
        requires within { writing < DESCRIPTORS }
        requires room { length (held self.old.descs) + 2 ≤ DESCRIPTIONS }
        ensures ok { OnOk result (self.new ≡ managed_after_all (pipe_effects pid.0 (reading, writing) cloexec self.old) self.old) }
        ensures err { OnErr result (self.new ≡ self.old) }
    {
        let pipe = self.pipes.add(alloc)?;
        let reads = Description {
            object: Object::PipeRead(pipe),
            offset: 0,
            flags: 0,
        };
        let writes = Description {
            object: Object::PipeWrite(pipe),
            offset: 0,
            flags: O_WRONLY,
        };
        open_in(
            &mut self.procs,
            &mut self.descs,
            &mut self.pipes,
            pid,
            reading,
            reads,
            cloexec,
        );
        open_in(
            &mut self.procs,
            &mut self.descs,
            &mut self.pipes,
            pid,
            writing,
            writes,
            cloexec,
        );
        Ok(())
    }

    /// Closes a descriptor, as in close(2), where it is open. Returns the file whose last description ended with it. A pipe
    /// goes with its last end.
    pub fn close(&mut self, pid: Pid, fd: u32) -> Option<FileNo>
        ensures closed { self.new ≡ managed_after (Closes pid.0 fd) self.old }
        ensures frees { (k : Kernel) → closing pid.0 fd (with_managed self.old k) ≡ Closes pid.0 fd ∷ frees result }
    {
        let entry = self.procs.fd(pid, u64::from(fd))?;
        self.procs.set_fd(pid, fd, None);
        let ended = self.descs.let_go(entry.desc)?;
        self.pipes.end(ended.object);
        file_left(&self.descs, ended.object)
    }

    /// A process without a parent, with these registers and this break; descriptor 0 is open on standard input, 1 on standard
    /// output and 2 on standard error.
    pub fn start(&mut self, alloc: Global, cpu: Cpu, brk: Brk) -> Result<Pid, SpawnFault>
        requires last { self.old.last < 2 ^ 32 - 1 }
        requires room { length (held self.old.descs) + 3 ≤ DESCRIPTIONS }
        ensures ok { OnOk result (self.new ≡ managed_after_all (start_effects (self.old.last + 1) cpu brk) self.old) }
        ensures pid { IfOk result (λ pid. pid.0 ≡ self.old.last + 1) }
        ensures limit { is_too_many result ≡ nat_le PROCESSES (length self.old.procs) }
        ensures err { OnErr result (self.new ≡ self.old) }
    {
        let pid = self.spawn(alloc, cpu, brk)?;
        self.open_streams(pid);
        Ok(pid)
    }

    // A process without a parent and with all descriptors free.
    fn spawn(&mut self, alloc: Global, cpu: Cpu, brk: Brk) -> Result<Pid, SpawnFault>
        requires { self.old.last < 2 ^ 32 - 1 }
        ensures ok { OnOk result (self.new ≡ managed_after (Starts (self.old.last + 1) cpu brk) self.old) }
        ensures pid { IfOk result (λ pid. pid.0 ≡ self.old.last + 1) }
        ensures there { OnOk result (process self.new.procs (self.old.last + 1) ≡ Some (first_process (self.old.last + 1) cpu brk)) }
        ensures limit { is_too_many result ≡ nat_le PROCESSES (length self.old.procs) }
        ensures err { OnErr result (self.new ≡ self.old) }
    {
        if self.procs.is_full() {
            return Err(SpawnFault::TooMany);
        }
        let fds = Fds::new(alloc)?;
        Ok(self.procs.spawn(Pid(0), cpu, brk, fds)?)
    }

    // The standard streams, for a process that lives and has nothing open.
    fn open_streams(&mut self, pid: Pid)
        requires alive { is_alive pid.0 self.old ≡ true }
        requires free { fds_of (process self.old.procs pid.0) ≡ no_descriptors }
        requires room { length (held self.old.descs) + 3 ≤ DESCRIPTIONS }
        ensures { self.new ≡ managed_after_all (stream_effects pid.0) self.old }
    {
        self.open(pid, 0, Object::Input, 0, false);
        self.open(pid, 1, Object::Output(Stream::Out), O_WRONLY, false);
        self.open(pid, 2, Object::Output(Stream::Err), O_WRONLY, false);
    }

    /// A child of a process that lives, with these registers, as fork(2) makes it: it has the descriptors and the break of its
    /// parent, and shares its descriptions.
    pub fn fork(&mut self, alloc: Global, parent: Pid, cpu: Cpu) -> Result<Pid, SpawnFault>
        requires alive { is_alive parent.0 self.old ≡ true }
        requires last { self.old.last < 2 ^ 32 - 1 }
        ensures ok { OnOk result (self.new ≡ managed_after (Forks parent.0 (self.old.last + 1) cpu) self.old) }
        ensures pid { IfOk result (λ pid. pid.0 ≡ self.old.last + 1) }
        ensures limit { is_too_many result ≡ nat_le PROCESSES (length self.old.procs) }
        ensures err { OnErr result (self.new ≡ self.old) }
    {
        if self.procs.is_full() {
            return Err(SpawnFault::TooMany);
        }
        let fds = self.procs.copy_fds(parent, alloc)?;
        let brk = self.known(parent).brk;
        self.descs.share_all(&fds);
        Ok(self.procs.spawn(parent, cpu, brk, fds)?)
    }

    /// A process dies with a wait status, as wait(2) gives it; its descriptors were closed before. The exit is recorded, and its
    /// children get process 1 as their parent where that lives, else none.
    pub fn die(&mut self, pid: Pid, status: u32) -> Result<(), NoMemory>
        requires closed { holds_some (λ e. true) (fds_of (process self.old.procs pid.0)) ≡ false }
        ensures ok { OnOk result (self.new ≡ managed_after (Dies pid.0 status) self.old) }
        ensures err { OnErr result (self.new ≡ self.old) }
    {
        self.exits.push(Exit { pid, status })?;
        self.procs.die(pid, status);
        Ok(())
    }

    /// What a parent finds that waits for a child of a pid, or for any (-1): the dead one of least pid.
    pub fn child(&self, parent: Pid, want: i64) -> Reaped
        ensures { result ≡ child_for parent.0 want (table_of self.now) }
    {
        self.procs.child(parent, want)
    }

    /// The same, and the dead child is gone.
    pub fn reap(&mut self, parent: Pid, want: i64) -> Reaped
        ensures found { result ≡ child_for parent.0 want (table_of self.old) }
        ensures gone { self.new ≡ after_reaped result self.old }
    {
        self.procs.reap(parent, want)
    }

    /// The exits in order.
    pub fn exits(&self) -> &[Exit]
        ensures { result.now ≡ self.now.exits }
    {
        self.exits.as_slice()
    }
}

// The file of an object whose description has ended, where no other description is open on it.
fn file_left(descs: &Descs, object: Object) -> Option<FileNo>
    ensures { result ≡ file_left object descs.now.descs }
{
    match object {
        Object::Regular(file) => {
            if descs.has_file(file) {
                None
            } else {
                Some(file)
            }
        }
        _ => None,
    }
}

// A new description for a free descriptor of a process that lives.
fn open_in(
    procs: &mut Procs,
    descs: &mut Descs,
    pipes: &mut Pipes,
    pid: Pid,
    fd: u32,
    description: Description,
    cloexec: bool,
)
    requires counted { Counted procs.old descs.old pipes.old }
    requires alive { picks (λ p. is_live p.state) (process procs.old.procs pid.0) ≡ true }
    requires fd { fd < DESCRIPTORS }
    requires free { slot (fds_of (process procs.old.procs pid.0)) fd ≡ None }
    requires pipe { PipeThere pipes.old.pipes description.object }
    requires room { length (held descs.old.descs) < DESCRIPTIONS }
    ensures procs { procs.new ≡ record procs.old { procs = at_pid pid.0 (at_fd fd (Some (record { desc = next_slot descs.old.descs; cloexec = cloexec }))) procs.old.procs } }
    ensures descs { descs.new.descs ≡ with_next description descs.old.descs }
    ensures pipes { pipes.new.pipes ≡ pipes.old.pipes }
    ensures counted { Counted procs.new descs.new pipes.new }
{
    let entry = FdEntry {
        desc: descs.add(description),
        cloexec,
    };
    pipes.begin(description.object);
    procs.set_fd(pid, fd, Some(entry));
}
