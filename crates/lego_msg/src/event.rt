//! Events: what happens in a run, as a watch sees it.

use crate::message::Message;
use lego_base::{Bytes, CpuId, LineNo, MemId, OpNo, Pid};

/// Something that happened in a run, as a watch sees it.
#[derive(Clone, Debug, Drop)]
pub enum Event {
    /// A turn begins. Turn 0 is booting and has pid 0.
    Turn {
        number: u64,
        pid: Pid,
    },
    /// A processor accessed bytes of one line. A probe and an access that isn't permitted have kind `Probe`
    /// and no bytes.
    Access {
        cpu: CpuId,
        pid: Pid,
        address: u64,
        kind: Kind,
        bytes: Bytes,
    },
    /// The loader wrote bytes of one page.
    Fill {
        pid: Pid,
        address: u64,
        bytes: Bytes,
    },
    /// A processor's cache let go of a line.
    Drop {
        cpu: CpuId,
        pid: Pid,
        line: LineNo,
    },
    /// A message was sent.
    Send(Message),
    /// A pending message was delivered.
    Deliver(Message),
    /// A memory lost all that it held; its incarnation is now this.
    Crash {
        memory: MemId,
        inc: u32,
    },
    /// An operation is complete.
    Complete(OpNo),
    /// Bytes went to standard output (1) or standard error (2).
    Out {
        stream: u8,
        bytes: Bytes,
    },
}

/// For what an access was made.
#[derive(Clone, Copy, Debug, PartialEq, Eq)]
pub enum Kind {
    /// A load of an instruction.
    Load,
    /// A store of an instruction.
    Store,
    /// An instruction's own bytes.
    Fetch,
    /// A system call's copy from the space.
    CopyIn,
    /// A system call's copy to the space.
    CopyOut,
    /// A test of a line, without bytes.
    Probe,
}
