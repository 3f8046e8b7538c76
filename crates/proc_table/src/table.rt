//! The table of processes.

ghost use Rattle.std.specs.Prelude.{◌≡◌, ◌+◌, ◌-◌, ◌^◌, ◌<◌, ◌≤◌, length, filter, map, is_err, nat_le, option_map, slice_get, OnOk, OnErr, IfOk, IfSome};
ghost use Rattle.linux_model.specs.Processes.{after_death, at_pid, fds_of, heir, is_live, lives, process};
ghost use Rattle.proc_table.specs.Changes.{after_brk, after_cpu, after_fd, after_one, after_waiting};
ghost use Rattle.linux_model.specs.Effects.{at_fd};
ghost use Rattle.kernel_objects.specs.Slots.{lowest_free, slot};
ghost use Rattle.fd_table.specs.declared.fds.TheConstants.{DESCRIPTORS};
ghost use Rattle.proc_table.specs.Entries.{child_for, chosen_of, no_processes, proc_of, process_of, spawned, without_reaped};
ghost use Rattle.proc_table.specs.declared.table.TheConstants.{MOST_PROCESSES};

use crate::entry::{
    Entry, is_wanted, known_of, mourns, stays, takes_brk, takes_cpu, takes_fd, takes_waiting,
};
use fd_table::{DESCRIPTORS, Fds};
use kernel_objects::{Brk, FdEntry, Waiting};
use lego_base::{NoMemory, Pid};
use rv64_step::Cpu;
use std::alloc::Global;
use std::marker::Model;

/// Processes at most, zombies counted.
pub const MOST_PROCESSES: usize = 64;

/// There are `MOST_PROCESSES` processes.
#[derive(Clone, Copy, Debug, PartialEq, Eq)]
pub struct TooMany;

/// What a parent that waits finds, as in wait4(2).
#[derive(Clone, Copy, Debug, PartialEq, Eq)]
pub enum Reaped {
    /// The dead child of least pid, and its wait status.
    Child(Pid, u32),
    /// There is no such child.
    NoChild,
    /// Such children live.
    NotYet,
}

/// What is known of a process.
#[derive(Clone, Copy, Debug, PartialEq, Eq)]
pub struct Proc {
    /// 0 where it has none.
    pub parent: Pid,
    pub cpu: Cpu,
    pub brk: Brk,
    /// What is kept of a call that waits.
    pub waiting: Option<Waiting>,
    /// The wait status of a zombie.
    pub status: Option<u32>,
}

/// The processes, in the order of their pids.
#[derive(Drop)]
pub struct Procs {
    entries: Vec<Entry>, // with room for `MOST_PROCESSES`
    last: u32,
}

impl Model for Procs {
    ghost use Rattle.std.specs.Prelude.{◌≤◌, length, map, vec_capacity};
    ghost use Rattle.proc_table.specs.Entries.{Table, process_of};
    ghost use Rattle.proc_table.specs.declared.table.TheConstants.{MOST_PROCESSES};

    ghost Value = { Table };

    ghost view = { λ t. record { procs = map process_of t.entries.items; last = t.last } };

    ghost invariant = { λ t. (length t.entries.items ≤ MOST_PROCESSES) × (MOST_PROCESSES ≤ vec_capacity t.entries) };
}

impl Procs {
    /// No process. Takes all memory that the table will ever need.
    pub fn new(alloc: Global) -> Result<Procs, NoMemory>
        ensures { IfOk result (λ t. t ≡ no_processes) }
    {
        let entries = Vec::with_capacity(alloc, MOST_PROCESSES)?;
        Ok(Procs { entries, last: 0 })
    }

    /// A new process with these registers, this break and these descriptors. It gets the pid after the last one.
    pub fn spawn(&mut self, parent: Pid, cpu: Cpu, brk: Brk, fds: Fds) -> Result<Pid, TooMany>
        requires { self.old.last < 2 ^ 32 - 1 }
        ensures ok { OnOk result (self.new ≡ spawned parent.0 cpu brk fds self.old) }
        ensures pid { IfOk result (λ pid. pid.0 ≡ self.old.last + 1) }
        ensures full { is_err result ≡ nat_le MOST_PROCESSES (length self.old.procs) }
        ensures err { OnErr result (self.new ≡ self.old) }
    {
        if self.entries.len() >= MOST_PROCESSES {
            return Err(TooMany);
        }
        let pid = Pid(self.last + 1);
        self.entries.push_reserved(Entry {
            pid,
            parent,
            status: None,
            cpu,
            brk,
            waiting: None,
            fds,
        });
        self.last = pid.0;
        Ok(pid)
    }

    /// The pid that was given last; 0 before the first.
    pub fn last(&self) -> u32
        ensures { result ≡ self.now.last }
    {
        self.last
    }

    /// Whether there is room for no further process.
    pub fn is_full(&self) -> bool
        ensures { result ≡ nat_le MOST_PROCESSES (length self.now.procs) }
    {
        self.entries.len() >= MOST_PROCESSES
    }

    /// How many processes live.
    pub fn live(&self) -> u32
        ensures { result ≡ length (filter (λ p. is_live p.state) self.now.procs) }
    {
        live_in(self.entries.as_slice())
    }

    /// What is known of a process; `None` exactly where it isn't there.
    pub fn get(&self, pid: Pid) -> Option<Proc>
        ensures { result ≡ option_map proc_of (process self.now.procs pid.0) }
    {
        find(self.entries.as_slice(), pid)
    }

    /// The registers of a process become these.
    pub fn set_cpu(&mut self, pid: Pid, cpu: Cpu)
        ensures { self.new ≡ record self.old { procs = at_pid pid.0 (λ p. record p { cpu = cpu }) self.old.procs } }
    {
        put_cpu(self.entries.as_mut_slice(), pid, cpu);
    }

    /// The break of a process becomes this.
    pub fn set_brk(&mut self, pid: Pid, brk: Brk)
        ensures { self.new ≡ record self.old { procs = at_pid pid.0 (λ p. record p { brk = brk }) self.old.procs } }
    {
        put_brk(self.entries.as_mut_slice(), pid, brk);
    }

    /// What is kept of a process's waiting call becomes this.
    pub fn set_waiting(&mut self, pid: Pid, waiting: Option<Waiting>)
        ensures { self.new ≡ record self.old { procs = at_pid pid.0 (λ p. record p { waiting = waiting }) self.old.procs } }
    {
        put_waiting(self.entries.as_mut_slice(), pid, waiting);
    }

    /// The process at a place among all, from 0, in the order of their pids; `None` exactly past them.
    pub fn nth(&self, place: u32) -> Option<Pid>
        ensures { option_map (λ pid. pid.0) result ≡ option_map (λ p. p.pid) (slice_get self.now.procs place) }
    {
        match self.entries.get(place as usize) {
            Some(entry) => Some(entry.pid),
            None => None,
        }
    }

    /// The same with what is known of it.
    pub fn at(&self, place: u32) -> Option<(Pid, Proc)>
        ensures { result ≡ option_map (λ p. (record { 0 = p.pid }, proc_of p)) (slice_get self.now.procs place) }
    {
        match self.entries.get(place as usize) {
            Some(entry) => Some((entry.pid, known_of(entry))),
            None => None,
        }
    }

    /// What a descriptor of the process at a place is; `None` where it isn't open, or there is no such process.
    pub fn fd_at(&self, place: u32, fd: u64) -> Option<FdEntry>
        ensures { result ≡ slot (fds_of (slice_get self.now.procs place)) fd }
    {
        match self.entries.get(place as usize) {
            Some(entry) => entry.fds.get(fd),
            None => None,
        }
    }

    /// A copy of the descriptors of a process, as fork(2) gives it to a child; all free where there is no such process.
    pub fn copy_fds(&self, pid: Pid, alloc: Global) -> Result<Fds, NoMemory>
        ensures { IfOk result (λ fds. IfSome (process self.now.procs pid.0) (λ p. fds ≡ p.fds)) }
    {
        copied_fds(self.entries.as_slice(), pid, alloc)
    }

    /// What a descriptor of a process is; `None` where it isn't open, or there is no such process.
    pub fn fd(&self, pid: Pid, fd: u64) -> Option<FdEntry>
        ensures { result ≡ slot (fds_of (process self.now.procs pid.0)) fd }
    {
        fd_in(self.entries.as_slice(), pid, fd)
    }

    /// The lowest free descriptor of a process, not below `from`.
    pub fn lowest_free(&self, pid: Pid, from: u32) -> Option<u32>
        ensures free { result ≡ lowest_free (fds_of (process self.now.procs pid.0)) from }
        ensures within { IfSome result (λ fd. fd < DESCRIPTORS) }
    {
        free_in(self.entries.as_slice(), pid, from)
    }

    /// A descriptor of a process becomes an entry, or free.
    pub fn set_fd(&mut self, pid: Pid, fd: u32, entry: Option<FdEntry>)
        requires { fd < DESCRIPTORS }
        ensures { self.new ≡ record self.old { procs = at_pid pid.0 (at_fd fd entry) self.old.procs } }
    {
        put_fd(self.entries.as_mut_slice(), pid, fd, entry);
    }

    /// A process dies with a wait status, as wait(2) gives it; its descriptors were closed before. Its children get process 1
    /// as their parent where that lives, else none, and a zombie without a parent is gone.
    pub fn die(&mut self, pid: Pid, status: u32)
        ensures { self.new ≡ record self.old { procs = after_death pid.0 status self.old.procs } }
    {
        let heir = heir_of(self.entries.as_slice(), pid);
        mourn(self.entries.as_mut_slice(), pid, status, heir);
        self.entries.retain(|entry| stays(entry));
    }

    /// What a parent finds that waits for a child of a pid, or for any (-1): the dead one of least pid.
    pub fn child(&self, parent: Pid, want: i64) -> Reaped
        ensures { result ≡ child_for parent.0 want self.now }
    {
        child_in(self.entries.as_slice(), parent, want)
    }

    /// The same, and the dead child is gone.
    pub fn reap(&mut self, parent: Pid, want: i64) -> Reaped
        ensures found { result ≡ child_for parent.0 want self.old }
        ensures gone { self.new ≡ without_reaped result self.old }
    {
        let found = self.child(parent, want);
        if let Reaped::Child(pid, _) = found {
            self.entries.retain(|entry| entry.pid != pid);
        }
        found
    }
}

/// Who of the ready processes has a turn, by the turn's number of the turn list; `None` exactly where none is ready.
pub fn choose(ready: &[Pid], turn: u32) -> Option<Pid>
    ensures { result ≡ chosen_of ready.now turn }
{
    if ready.is_empty() {
        return None;
    }
    Some(ready[turn as usize % ready.len()])
}

fn live_in(entries: &[Entry]) -> u32
    requires { length entries.now ≤ MOST_PROCESSES }
    ensures { result ≡ length (filter (λ p. is_live p.state) (map process_of entries.now)) }
{
    let mut live = 0;
    for entry in entries.iter() {
        if entry.status.is_none() {
            live += 1;
        }
    }
    live
}

fn find(entries: &[Entry], pid: Pid) -> Option<Proc>
    ensures { result ≡ option_map proc_of (process (map process_of entries.now) pid.0) }
{
    for entry in entries.iter() {
        if entry.pid == pid {
            return Some(known_of(entry));
        }
    }
    None
}

fn put_cpu(entries: &mut [Entry], pid: Pid, cpu: Cpu)
    ensures { map process_of entries.new ≡ map (after_cpu pid.0 cpu) (map process_of entries.old) }
{
    for entry in entries.iter_mut() {
        takes_cpu(entry, pid, cpu);
    }
}

fn put_brk(entries: &mut [Entry], pid: Pid, brk: Brk)
    ensures { map process_of entries.new ≡ map (after_brk pid.0 brk) (map process_of entries.old) }
{
    for entry in entries.iter_mut() {
        takes_brk(entry, pid, brk);
    }
}

fn put_waiting(entries: &mut [Entry], pid: Pid, waiting: Option<Waiting>)
    ensures { map process_of entries.new ≡ map (after_waiting pid.0 waiting) (map process_of entries.old) }
{
    for entry in entries.iter_mut() {
        takes_waiting(entry, pid, waiting);
    }
}

fn put_fd(entries: &mut [Entry], pid: Pid, fd: u32, slot: Option<FdEntry>)
    requires { fd < DESCRIPTORS }
    ensures { map process_of entries.new ≡ map (after_fd pid.0 fd slot) (map process_of entries.old) }
{
    for entry in entries.iter_mut() {
        takes_fd(entry, pid, fd, slot);
    }
}

fn fd_in(entries: &[Entry], pid: Pid, fd: u64) -> Option<FdEntry>
    ensures { result ≡ slot (fds_of (process (map process_of entries.now) pid.0)) fd }
{
    for entry in entries.iter() {
        if entry.pid == pid {
            return entry.fds.get(fd);
        }
    }
    None
}

fn copied_fds(entries: &[Entry], pid: Pid, alloc: Global) -> Result<Fds, NoMemory>
    ensures { IfOk result (λ fds. IfSome (process (map process_of entries.now) pid.0) (λ p. fds ≡ p.fds)) }
{
    for entry in entries.iter() {
        if entry.pid == pid {
            return entry.fds.copy(alloc);
        }
    }
    Fds::new(alloc)
}

fn free_in(entries: &[Entry], pid: Pid, from: u32) -> Option<u32>
    ensures free { result ≡ lowest_free (fds_of (process (map process_of entries.now) pid.0)) from }
    ensures within { IfSome result (λ fd. fd < DESCRIPTORS) }
{
    for entry in entries.iter() {
        if entry.pid == pid {
            return entry.fds.lowest_free(from);
        }
    }
    None
}

// Who becomes the parent of a dead process's children.
fn heir_of(entries: &[Entry], dead: Pid) -> Pid
    ensures { result.0 ≡ heir dead.0 (map process_of entries.now) }
{
    if dead != Pid(1) && lives(entries, Pid(1)) {
        Pid(1)
    } else {
        Pid(0)
    }
}

fn lives(entries: &[Entry], pid: Pid) -> bool
    ensures { result ≡ lives pid.0 (map process_of entries.now) }
{
    for entry in entries.iter() {
        if entry.pid == pid && entry.status.is_none() {
            return true;
        }
    }
    false
}

fn mourn(entries: &mut [Entry], dead: Pid, status: u32, heir: Pid)
    ensures { map process_of entries.new ≡ map (after_one dead.0 status heir.0) (map process_of entries.old) }
{
    for entry in entries.iter_mut() {
        mourns(entry, dead, status, heir);
    }
}

fn child_in(entries: &[Entry], parent: Pid, want: i64) -> Reaped
    ensures { result ≡ child_for parent.0 want (record { procs = map process_of entries.now; last = 0 }) }
{
    let mut found = Reaped::NoChild;
    for entry in entries.iter() {
        if is_wanted(entry, parent, want) {
            if let Some(status) = entry.status {
                return Reaped::Child(entry.pid, status);
            }
            found = Reaped::NotYet;
        }
    }
    found
}
