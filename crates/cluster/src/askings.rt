//! Areas of a process, asked for region by region.

ghost use Rattle.std.specs.Prelude.{◌≡◌, ◌+◌, ◌≤◌, ◌++◌, IfOk, None, OnErr, OnOk, true};
ghost use Rattle.lego_base.specs.Keys.{is_of, those};
ghost use Rattle.lego_base.specs.declared.sizes.TheConstants.{USER_END};
ghost use Rattle.lego_msg.specs.Maps.{home_key};
ghost use Rattle.lego_msg.specs.Places.{is_issuer};
ghost use Rattle.lego_msg.specs.Plain.{Plain};
ghost use Rattle.cluster.specs.Askings.{AreOwned, all_runs, areas_among, asks_of, meets, met_by, runs_told};

use crate::Cluster;
use lego_base::{Area, AreaRuns, Halt, HomeEntry, NoMemory, Pid, Seq};
use lego_msg::{Body, Operation, Place, Watch};
use std::alloc::Global;

const REGION: u64 = 2097152; // bytes of a region

impl Cluster {
    ghost use Rattle.cluster.specs.Sequences.{CallsAll, all_served};
    ghost use Rattle.cluster.specs.Standing.{IsAtRest, StandsFor};

    /// The areas of a process: those of each of its regions that has an owner, asked for one by one in rising order.
    pub fn areas<W: Watch>(&mut self, by: Place, pid: Pid, watch: &mut W) -> Result<AreaRuns, Halt>
        requires issuer { is_issuer by ≡ true }
        requires rests { self.old.halt ≡ None → IsAtRest self.old }
        ensures call { let asks = asks_of (those home_key (is_of pid.0) self.old.table.owners) in
            CallsAll W.told W.faults watch.old watch.new self.old self.new by asks (λ areas. all_served by asks) result }
        ensures areas { IfOk result (λ areas. (f : Plain) → StandsFor self.old f → areas ≡ areas_among f (those home_key (is_of pid.0) self.old.table.owners)) }
    {
        match self.halted() {
            Some(halt) => return Err(halt),
            None => {}
        }
        let alloc = self.alloc();
        match self.entries(alloc, pid) {
            Err(_) => {
                self.out_of_memory();
                return Err(Halt::NoMemory);
            }
            Ok(entries) => return self.ask_areas(by, alloc, entries.as_slice(), watch),
        }
    }

    /// The areas of those regions of a process that `len` bytes at `start` meet and that have an owner, asked for one by one in
    /// rising order. No byte meets none.
    pub fn span_areas<W: Watch>(
        &mut self,
        by: Place,
        pid: Pid,
        start: u64,
        len: u64,
        watch: &mut W,
    ) -> Result<AreaRuns, Halt>
        requires issuer { is_issuer by ≡ true }
        requires most { start + len ≤ USER_END }
        requires rests { self.old.halt ≡ None → IsAtRest self.old }
        ensures call { let asks = asks_of (met_by start len (those home_key (is_of pid.0) self.old.table.owners)) in
            CallsAll W.told W.faults watch.old watch.new self.old self.new by asks (λ areas. all_served by asks) result }
        ensures areas { IfOk result (λ areas. (f : Plain) → StandsFor self.old f → areas ≡ areas_among f (met_by start len (those home_key (is_of pid.0) self.old.table.owners))) }
    {
        match self.halted() {
            Some(halt) => return Err(halt),
            None => {}
        }
        let alloc = self.alloc();
        match self.entries_met(alloc, pid, start, len) {
            Err(_) => {
                self.out_of_memory();
                return Err(Halt::NoMemory);
            }
            Ok(entries) => return self.ask_areas(by, alloc, entries.as_slice(), watch),
        }
    }

    // The areas of regions, asked for one by one of their owners.
    fn ask_areas<W: Watch>(
        &mut self,
        by: Place,
        alloc: Global,
        entries: &[HomeEntry],
        watch: &mut W,
    ) -> Result<AreaRuns, Halt>
        requires issuer { is_issuer by ≡ true }
        requires owned { self.old.halt ≡ None → AreOwned self.old.table.owners entries.now }
        requires rests { self.old.halt ≡ None → IsAtRest self.old }
        ensures call { CallsAll W.told W.faults watch.old watch.new self.old self.new by (asks_of entries.now) (λ areas. all_served by (asks_of entries.now)) result }
        ensures areas { IfOk result (λ areas. (f : Plain) → StandsFor self.old f → areas ≡ areas_among f entries.now) }
    {
        match self.halted() {
            Some(halt) => return Err(halt),
            None => {}
        }
        match asks_of(alloc, entries) {
            Err(_) => {
                self.out_of_memory();
                return Err(Halt::NoMemory);
            }
            Ok(asks) => match self.ask_all(by, asks, watch) {
                Err(halt) => return Err(halt),
                Ok(answers) => match all_runs(alloc, answers.as_slice()) {
                    Err(_) => {
                        self.out_of_memory();
                        return Err(Halt::NoMemory);
                    }
                    Ok(areas) => return Ok(areas),
                },
            },
        }
    }

    // Those entries of a process's regions that bytes meet.
    pub(crate) fn entries_met(
        &self,
        alloc: Global,
        pid: Pid,
        start: u64,
        len: u64,
    ) -> Result<Seq<HomeEntry>, NoMemory>
        requires { start + len ≤ USER_END }
        ensures { IfOk result (λ entries. entries ≡ met_by start len (those home_key (is_of pid.0) self.now.table.owners)) }
    {
        let entries = self.entries(alloc, pid)?;
        met_by(alloc, entries.as_slice(), start, len)
    }
}

// Those regions that bytes meet.
fn met_by(
    alloc: Global,
    entries: &[HomeEntry],
    start: u64,
    len: u64,
) -> Result<Seq<HomeEntry>, NoMemory>
    requires { start + len ≤ USER_END }
    ensures { IfOk result (λ met. met ≡ met_by start len entries.now) }
{
    let mut met = Seq::new(alloc);
    for entry in entries {
        if meets(start, len, *entry) {
            met.push(*entry)?;
        }
    }
    Ok(met)
}

// Whether bytes meet a region.
fn meets(start: u64, len: u64, entry: HomeEntry) -> bool
    requires { start + len ≤ USER_END }
    ensures { result ≡ meets start len entry }
{
    if len == 0 {
        return false;
    }
    if entry.region.0 < start / REGION {
        return false;
    }
    if (start + len - 1) / REGION < entry.region.0 {
        return false;
    }
    true
}

// An asking of each region's owner.
fn asks_of(alloc: Global, entries: &[HomeEntry]) -> Result<Vec<Operation>, NoMemory>
    ensures { IfOk result (λ asks. asks.items ≡ asks_of entries.now) }
{
    let mut asks = Vec::new(alloc);
    for entry in entries {
        asks.push(Operation::AsksAreas {
            pid: entry.pid,
            region: entry.region,
            owner: entry.owner,
        })?;
    }
    Ok(asks)
}

// The areas of answers, one after the other.
fn all_runs(alloc: Global, answers: &[Body]) -> Result<AreaRuns, NoMemory>
    ensures { IfOk result (λ areas. areas ≡ all_runs answers.now) }
{
    let mut joined = Vec::new(alloc);
    for answer in answers {
        add_runs(&mut joined, answer)?;
    }
    Ok(Seq::from_vec(joined))
}

// Adds the areas of an answer that has some.
fn add_runs(joined: &mut Vec<Area>, answer: &Body) -> Result<(), NoMemory>
    ensures ok { OnOk result (joined.new.items ≡ joined.old.items ++ runs_told answer.now) }
    ensures err { OnErr result (joined.new.items ≡ joined.old.items) }
{
    match answer {
        Body::AreasAre { areas } => {
            joined.extend_from_slice(areas.as_slice())?;
            Ok(())
        }
        _ => Ok(()),
    }
}
