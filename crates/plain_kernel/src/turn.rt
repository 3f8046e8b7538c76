//! A turn.

ghost use Rattle.std.specs.Prelude.{◌≡◌, ◌<◌, ◌%◌, true, IfOk, IfSome, OnOk, length, map, slice_index};
ghost use Rattle.linux_model.specs.Calls.{call_effects};
ghost use Rattle.linux_model.specs.ProcessCalls.{dying};
ghost use Rattle.linux_model.specs.Processes.{process};
ghost use Rattle.linux_model.specs.State.{Kernel, Written};
ghost use Rattle.manager.specs.Words.{is_alive};
ghost use Rattle.call_machine.specs.Lent.{FitTogether};
ghost use Rattle.plain_machine.specs.Plain.{held_of};
ghost use Rattle.plain_kernel.specs.Standing.{kernel_in, over};
ghost use Rattle.plain_kernel.specs.Turns.{CanTurn, Instructed, NextIs, schedule_of, TookTurn, Turned};
ghost use Rattle.sys_calls.specs.Ready.{CanCall};

use crate::kernel::{Next, PlainKernel};
use desc_read::Plan;
use lego_base::{EndWord, NoMemory, Pid};
use plain_steps::run_some;
use rv64_step::StepEnd;
use std::alloc::Global;
use sys_calls::do_call;
use sys_process::die;

impl PlainKernel {
    /// What comes after this many turns: the end of the run, where no process lives, none is ready, or all turns are over; else
    /// a turn of the ready process that the plan's turns choose.
    pub fn next(&self, alloc: Global, plan: &Plan, turns: u64) -> Result<Next, NoMemory>
        requires { 0 < length plan.now.turns }
        ensures { (written : Written) → IfOk result (NextIs (schedule_of plan.now) turns (kernel_in self.now written)) }
    {
        if self.manager.live() == 0 {
            return Ok(Next::End(EndWord::Done));
        }
        let ready = self.manager.ready(alloc)?;
        if ready.is_empty() {
            return Ok(Next::End(EndWord::Stuck));
        }
        if turns >= plan.max_turns {
            return Ok(Next::End(EndWord::Spent));
        }
        Ok(Next::Turn(chosen(plan.turns.as_slice(), turns, ready.as_slice())))
    }

    /// A turn of a process that lives: the call that it waits in is tried once more; else it runs at most as many instructions as
    /// the plan has in a turn, and what ends them, a call or a death, happens.
    pub fn turn(&mut self, alloc: Global, plan: &Plan, pid: Pid) -> Result<(), NoMemory>
        requires { CanTurn (schedule_of plan.now) pid.0 self.old.manager (held_of self.old.machine) }
        ensures { (k : Kernel) → OnOk result (TookTurn (schedule_of plan.now) pid.0 self.old self.new k) }
    {
        if self.manager.waiting(pid).is_some() {
            return self.call(alloc, pid);
        }
        match self.instructions(pid, plan.quantum)? {
            StepEnd::Next => Ok(()),
            StepEnd::Call => self.call(alloc, pid),
            StepEnd::Dead(signal) => self.die(pid, u32::from(signal)),
        }
    }

    // At most `quantum` instructions of a process that lives: how they ended.
    fn instructions(&mut self, pid: Pid, quantum: u32) -> Result<StepEnd, NoMemory>
        requires alive { is_alive pid.0 self.old.manager ≡ true }
        requires fit { FitTogether self.old.manager (held_of self.old.machine) }
        ensures { IfSome (process self.old.manager.procs pid.0) (λ p. IfOk result (Instructed quantum p self.old self.new)) }
    {
        let mut cpu = self.manager.cpu(pid);
        let stop = run_some(&mut cpu, pid, self.machine.memory_mut(), quantum)?;
        self.manager.set_cpu(pid, cpu);
        Ok(stop)
    }

    // The call that a process makes.
    fn call(&mut self, alloc: Global, pid: Pid) -> Result<(), NoMemory>
        requires { CanCall pid.0 self.old.manager (held_of self.old.machine) }
        ensures { (k : Kernel) → OnOk result (Turned self.old self.new (call_effects (process self.old.manager.procs pid.0) (over self.old k))) }
    {
        match do_call(&mut self.machine, &mut self.manager, alloc, pid) {
            Ok(()) => Ok(()),
            Err(_) => Err(NoMemory),
        }
    }

    // The death of a process that lives, with a wait status.
    fn die(&mut self, pid: Pid, status: u32) -> Result<(), NoMemory>
        requires alive { is_alive pid.0 self.old.manager ≡ true }
        requires fit { FitTogether self.old.manager (held_of self.old.machine) }
        ensures { (k : Kernel) → OnOk result (Turned self.old self.new (dying pid.0 status (over self.old k))) }
    {
        match die(&mut self.machine, &mut self.manager, pid, status) {
            Ok(()) => Ok(()),
            Err(_) => Err(NoMemory),
        }
    }
}

// The ready process that has the turn after this many turns.
fn chosen(turns: &[u32], over: u64, ready: &[Pid]) -> Pid
    requires some { 0 < length turns.now }
    requires ready { 0 < length ready.now }
    ensures { result.0 ≡ slice_index (map (λ pid. pid.0) ready.now) (slice_index turns.now (over % length turns.now) % length ready.now) }
{
    let number = turns[(over % turns.len() as u64) as usize];
    ready[number as usize % ready.len()]
}
