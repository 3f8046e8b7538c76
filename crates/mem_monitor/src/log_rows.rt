//! The rows of the log.

ghost use Rattle.std.specs.Prelude.{◌≡◌, ◌++◌, map, OnOk};
ghost use Rattle.lego_msg.specs.Table.{drained};
ghost use Rattle.mem_monitor.specs.Rows.{waiters};

use crate::asker::Asker;
use crate::memory::Memory;
use lego_base::{MemId, NoMemory, OpNo, Patch};
use lego_msg::{Body, Message, Outbox, Place};
use mem_log::LogFull;
use std::alloc::Global;

impl Memory {
    ghost use Rattle.std.specs.Prelude.{[]};
    ghost use Rattle.lego_msg.specs.Table.{backed_up_row, batch_gone, batched, drain_row, log_row};
    ghost use Rattle.mem_monitor.specs.Rows.{Row, asking};

    // A patch goes to the end of the log.
    pub(crate) fn log_write(
        &mut self,
        alloc: Global,
        asker: Asker,
        patch: Patch,
        out: &mut Outbox,
    ) -> Result<(), NoMemory>
        ensures { OnOk result (Row self.old self.new out.old out.new (log_row self.old (asking asker) patch)) }
    {
        match self.log.push(patch) {
            Ok(()) => {
                self.batch(alloc, out)?;
                self.answer(asker, Body::Wrote, out)
            }
            Err(LogFull(_)) => self.answer(asker, Body::LogFull, out),
        }
    }

    // The log is to be empty.
    pub(crate) fn drain(
        &mut self,
        alloc: Global,
        asker: Asker,
        out: &mut Outbox,
    ) -> Result<(), NoMemory>
        ensures { OnOk result (Row self.old self.new out.old out.new (drain_row self.old (asking asker))) }
    {
        if self.log.is_empty() {
            return self.answer(asker, Body::Drained, out);
        }
        self.drains.push(asker)?;
        self.batch(alloc, out)
    }

    // Storage has the batch.
    pub(crate) fn backed_up(&mut self, alloc: Global, out: &mut Outbox) -> Result<(), NoMemory>
        ensures { OnOk result (Row self.old self.new out.old out.new (backed_up_row self.old)) }
    {
        if !self.log.batch_out() {
            return Ok(());
        }
        self.log.acked();
        self.after_batch(alloc, out)
    }

    // All drains that wait are answered where the log is empty; else the next batch may be due.
    fn after_batch(&mut self, alloc: Global, out: &mut Outbox) -> Result<(), NoMemory>
        ensures { OnOk result (Row self.old self.new out.old out.new (batch_gone self.old)) }
    {
        if !self.log.is_empty() {
            return self.batch(alloc, out);
        }
        answer_drains(self.id, self.drains.as_slice(), out)?;
        self.drains.clear();
        Ok(())
    }

    // A batch of the whole log goes to storage where it is due: half of the log's room is filled or a drain waits, and
    // no batch is out.
    fn batch(&mut self, alloc: Global, out: &mut Outbox) -> Result<(), NoMemory>
        ensures { OnOk result (Row self.old self.new out.old out.new (batched self.old [])) }
    {
        if !self.log.is_half_full() && self.drains.is_empty() {
            return Ok(());
        }
        match self.log.start_batch(alloc)? {
            Some(patches) => out.push(Message {
                from: Place::Memory(self.id),
                to: Place::Storage,
                op: OpNo(0),
                body: Body::Backup { patches },
            }),
            None => Ok(()),
        }
    }
}

// Answers drains in order.
fn answer_drains(id: MemId, drains: &[Asker], out: &mut Outbox) -> Result<(), NoMemory>
    ensures { OnOk result (out.new ≡ out.old ++ map (drained id.0) (waiters drains.now)) }
{
    for asker in drains {
        out.push(Message {
            from: Place::Memory(id),
            to: asker.place,
            op: asker.op,
            body: Body::Drained,
        })?;
    }
    Ok(())
}
