//! An entry of the table of processes.

ghost use Rattle.std.specs.Prelude.{◌≡◌, ◌<◌};
ghost use Rattle.std.specs.Int.{cast_unsigned, w64};
ghost use Rattle.linux_model.specs.Processes.{is_wanted, stays};
ghost use Rattle.proc_table.specs.Entries.{proc_of, process_of};
ghost use Rattle.proc_table.specs.Changes.{after_brk, after_cpu, after_fd, after_one, after_waiting};
ghost use Rattle.fd_table.specs.declared.fds.TheConstants.{DESCRIPTORS};

use crate::table::Proc;
use fd_table::Fds;
use kernel_objects::{Brk, FdEntry, Waiting};
use lego_base::Pid;
use rv64_step::Cpu;

// A process: a zombie where it has a wait status.
#[derive(Drop)]
pub struct Entry {
    pub pid: Pid,
    pub parent: Pid, // 0 where it has none
    pub status: Option<u32>,
    pub cpu: Cpu,
    pub brk: Brk,
    pub waiting: Option<Waiting>,
    pub fds: Fds,
}

// What the death of a process makes of an entry: its own becomes a zombie's, and children get an heir.
pub fn mourns(entry: &mut Entry, dead: Pid, status: u32, heir: Pid)
    ensures { process_of entry.new ≡ after_one dead.0 status heir.0 (process_of entry.old) }
{
    if entry.pid == dead {
        entry.status = Some(status);
        entry.waiting = None;
    }
    if entry.parent == dead {
        entry.parent = heir;
    }
}

// A zombie without a parent is gone.
pub fn stays(entry: &Entry) -> bool
    ensures { result ≡ stays (process_of entry.now) }
{
    entry.parent != Pid(0) || entry.status.is_none()
}

// Whether it is a child that a parent waits for, of a pid or of any (-1).
pub fn is_wanted(entry: &Entry, parent: Pid, want: i64) -> bool
    ensures { result ≡ is_wanted parent.0 (cast_unsigned w64 want) (process_of entry.now) }
{
    entry.parent == parent && (want == -1 || i64::from(entry.pid.0) == want)
}

// What is known of it.
pub fn known_of(entry: &Entry) -> Proc
    ensures { result ≡ proc_of (process_of entry.now) }
{
    Proc {
        parent: entry.parent,
        cpu: entry.cpu,
        brk: entry.brk,
        waiting: entry.waiting,
        status: entry.status,
    }
}

// Its registers become these where it has the pid.
pub fn takes_cpu(entry: &mut Entry, pid: Pid, cpu: Cpu)
    ensures { process_of entry.new ≡ after_cpu pid.0 cpu (process_of entry.old) }
{
    if entry.pid == pid {
        entry.cpu = cpu;
    }
}

pub fn takes_brk(entry: &mut Entry, pid: Pid, brk: Brk)
    ensures { process_of entry.new ≡ after_brk pid.0 brk (process_of entry.old) }
{
    if entry.pid == pid {
        entry.brk = brk;
    }
}

pub fn takes_waiting(entry: &mut Entry, pid: Pid, waiting: Option<Waiting>)
    ensures { process_of entry.new ≡ after_waiting pid.0 waiting (process_of entry.old) }
{
    if entry.pid == pid {
        entry.waiting = waiting;
    }
}

pub fn takes_fd(entry: &mut Entry, pid: Pid, fd: u32, slot: Option<FdEntry>)
    requires { fd < DESCRIPTORS }
    ensures { process_of entry.new ≡ after_fd pid.0 fd slot (process_of entry.old) }
{
    if entry.pid == pid {
        entry.fds.set(fd, slot);
    }
}
