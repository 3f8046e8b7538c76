//! The calls that ask nothing of the machine: who a process is, sched_yield(2) and exit(2).

ghost use Rattle.std.specs.Prelude.{◌≡◌, true, [], IfSome};
ghost use Rattle.linux_model.specs.Called.{says};
ghost use Rattle.linux_model.specs.ProcessCalls.{exit_row};
ghost use Rattle.linux_model.specs.Processes.{process};
ghost use Rattle.manager.specs.Words.{is_alive};
ghost use Rattle.call_machine.specs.Lent.{ended};

use call_machine::CallEnd;
use lego_base::Pid;
use manager::Manager;

/// getpid(2), gettid(2) and set_tid_address(2): a process has one thread, whose tid is the pid.
pub fn sys_getpid(pid: Pid) -> CallEnd
    ensures { says pid.0 ≡ ended result [] }
{
    CallEnd::Value(u64::from(pid.0))
}

/// getppid(2): the pid of the parent, 0 where there is none.
pub fn sys_getppid(manager: &Manager, pid: Pid) -> CallEnd
    requires { is_alive pid.0 manager.now ≡ true }
    ensures { IfSome (process manager.now.procs pid.0) (λ p. says p.parent ≡ ended result []) }
{
    CallEnd::Value(u64::from(manager.parent(pid).0))
}

/// sched_yield(2): the turn ends, as with each call.
pub fn sys_sched_yield() -> CallEnd
    ensures { says 0 ≡ ended result [] }
{
    CallEnd::Value(0)
}

/// exit(2) and exit_group(2): the process dies with the low byte of a code, as wait(2) gives it.
pub fn sys_exit(code: u64) -> CallEnd
    ensures { exit_row code ≡ ended result [] }
{
    CallEnd::Dies((code % 256) as u32 * 256)
}
