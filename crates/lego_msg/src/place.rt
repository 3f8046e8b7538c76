//! Components, as messages name them.

use lego_base::{CpuId, MemId};

/// Where a message comes from and where it goes.
#[derive(Clone, Copy, Debug, PartialEq, Eq)]
pub enum Place {
    /// A processor component.
    Processor(CpuId),
    /// A memory component.
    Memory(MemId),
    /// The storage component.
    Storage,
    /// The manager, which issues what no processor does: booting, healing and the archive.
    Manager,
}

/// For whom a memory keeps homes and areas: for itself, or for the memory whose secondary it is.
#[derive(Clone, Copy, Debug, PartialEq, Eq)]
pub enum Role {
    /// For itself.
    Main,
    /// For the memory whose secondary it is.
    Spare,
}

/// Why a request was refused. Its receiver changed nothing.
#[derive(Clone, Copy, Debug, PartialEq, Eq)]
pub enum Why {
    /// No area has the page.
    NoArea,
    /// The memory would hold more pages than it has frames.
    Full,
    /// The files would need more blocks than storage has.
    StoreFull,
    /// Storage has as many files as it may have.
    NoRoom,
}
