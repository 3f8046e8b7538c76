//! Lines are read.

ghost use Rattle.std.specs.Prelude.{◌≡◌, ◌/◌, IfOk, None, Some, true};
ghost use Rattle.lego_base.specs.Space.{perms_of};
ghost use Rattle.lego_msg.specs.Maps.{bytes_or_zeros, owner_of};
ghost use Rattle.lego_msg.specs.Places.{is_issuer};
ghost use Rattle.lego_msg.specs.Plain.{Plain};
ghost use Rattle.lego_msg.specs.Replies.{IsReply};
ghost use Rattle.lego_msg.specs.Sends.{ReadsAbsent};
ghost use Rattle.lego_msg.specs.Table.{line_answer};
ghost use Rattle.lego_msg.specs.Track.{Caches};
ghost use Rattle.lego_msg.specs.declared.operation.Operation.TheVariants.{Reads};
ghost use Rattle.cluster.specs.Answers.{IsLine, line_body};
ghost use Rattle.cluster.specs.LineCalls.{OwnerKnown, found_in, line_asked, line_beyond, read_in};

use crate::Cluster;
use lego_base::{Bytes, Halt, LineNo, MemId, MemStop, Perms, Pid, RegionNo};
use lego_msg::{Body, Operation, Place, Watch};

/// A line that was read.
#[derive(Clone, Debug, Drop)]
pub struct LineRead {
    pub perms: Perms, // of its page
    pub bytes: Bytes, // 64 of them
}

/// A line that was read, with the owner of its region.
#[derive(Clone, Debug, Drop)]
pub struct LineIn {
    pub owner: MemId,
    pub perms: Perms, // of its page
    pub bytes: Bytes, // 64 of them
}

impl Cluster {
    ghost use Rattle.cluster.specs.Calls.{Calls};
    ghost use Rattle.cluster.specs.Sequences.{CallsAll};
    ghost use Rattle.cluster.specs.Standing.{IsAtRest, IsAtRestWith, StandsFor};

    /// A line of 64 bytes with the permissions of its page, read from the owner of its region: `None` where no area has the
    /// page.
    pub fn read_from<W: Watch>(
        &mut self,
        by: Place,
        pid: Pid,
        line: LineNo,
        owner: MemId,
        watch: &mut W,
    ) -> Result<Option<LineRead>, Halt>
        requires issuer { is_issuer by ≡ true }
        requires owned { self.old.halt ≡ None → owner_of self.old.table.owners pid.0 (line.0 / 32768) ≡ Some owner }
        requires absent { (caches : Caches) × ReadsAbsent caches by pid.0 line.0 }
        requires rests { self.old.halt ≡ None → IsAtRest self.old }
        ensures call { Calls W.told W.faults watch.old watch.new self.old self.new by (Reads pid line owner) line_body result }
        ensures got { IfOk result (λ got. (f : Plain) → StandsFor self.old f → IsReply f (Reads pid line owner) (line_body got)) }
    {
        match self.ask(by, Operation::Reads { pid, line, owner }, watch) {
            Err(halt) => return Err(halt),
            Ok(body) => return Ok(line_in(body)),
        }
    }

    /// A line of 64 bytes with the permissions of its page, read from the owner of its region, which is asked for first:
    /// `Segv` where no area has the page.
    pub fn read_line<W: Watch>(
        &mut self,
        by: Place,
        pid: Pid,
        line: LineNo,
        watch: &mut W,
    ) -> Result<LineIn, MemStop>
        requires issuer { is_issuer by ≡ true }
        requires absent { (caches : Caches) × ReadsAbsent caches by pid.0 line.0 }
        requires rests { self.old.halt ≡ None → IsAtRestWith self.old (OwnerKnown self.old.table.owners pid line) }
        ensures call { CallsAll W.told W.faults watch.old watch.new self.old self.new by (line_asked pid line (owner_of self.old.table.owners pid.0 (line.0 / 32768))) (line_beyond by pid line) (found_in result) }
        ensures line { IfOk (found_in result) (λ got. (f : Plain) → StandsFor self.old f → line_body (read_in got) ≡ line_answer (perms_of (f.areas pid.0 (line.0 / 32768)) (line.0 / 64)) (bytes_or_zeros (f.page pid.0 (line.0 / 64))) line.0) }
        ensures owner { IfOk result (λ got. self.old.halt ≡ None → owner_of self.old.table.owners pid.0 (line.0 / 32768) ≡ Some got.owner) }
    {
        let region = RegionNo(line.0 / 32768);
        match self.find(by, pid, region, watch) {
            Err(halt) => return Err(MemStop::Halt(halt)),
            Ok(None) => return Err(MemStop::Segv),
            Ok(Some(owner)) => match self.read_from(by, pid, line, owner, watch) {
                Err(halt) => return Err(MemStop::Halt(halt)),
                Ok(None) => return Err(MemStop::Segv),
                Ok(Some(LineRead { perms, bytes })) => {
                    return Ok(LineIn {
                        owner,
                        perms,
                        bytes,
                    });
                }
            },
        }
    }
}

fn line_in(body: Body) -> Option<LineRead>
    requires { IsLine body }
    ensures { body ≡ line_body result }
{
    match body {
        Body::Line { perms, bytes } => Some(LineRead { perms, bytes }),
        Body::Refused(_) => None,
        _ => unreachable!(),
    }
}
