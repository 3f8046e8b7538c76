//! Numbers that name processes, components, pages, lines and files.

/// A process. Numbers start at 1; 0 names no process.
#[derive(Clone, Copy, Debug, PartialEq, Eq, PartialOrd, Ord)]
pub struct Pid(pub u32);

/// A memory component. Numbers start at 0.
#[derive(Clone, Copy, Debug, PartialEq, Eq)]
pub struct MemId(pub u32);

/// A processor component. Numbers start at 0.
#[derive(Clone, Copy, Debug, PartialEq, Eq)]
pub struct CpuId(pub u32);

/// A file. Numbers start at 0, and none is used again.
#[derive(Clone, Copy, Debug, PartialEq, Eq, PartialOrd, Ord, Hash)]
pub struct FileNo(pub u32);

/// An operation over the network of components. Numbers start at 1; background messages carry 0.
#[derive(Clone, Copy, Debug, PartialEq, Eq)]
pub struct OpNo(pub u64);

/// A cache line of an address space: the address divided by `LINE_BYTES`.
#[derive(Clone, Copy, Debug, PartialEq, Eq, PartialOrd, Ord)]
pub struct LineNo(pub u64);

/// A virtual page: the address divided by `PAGE_BYTES`.
#[derive(Clone, Copy, Debug, PartialEq, Eq, PartialOrd, Ord)]
pub struct Vpn(pub u64);

/// A region of an address space: the address divided by `REGION_BYTES`.
#[derive(Clone, Copy, Debug, PartialEq, Eq, PartialOrd, Ord)]
pub struct RegionNo(pub u64);
