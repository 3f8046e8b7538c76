//! What messages say.

use crate::place::{Place, Role, Why};
use lego_base::{
    AreaRuns, Bytes, FileNo, HomeEntry, LineNo, MemId, NameEntry, PageImage, Patch, Perms, Pid,
    RegionNo, Seq, SpaceAreas, Vpn,
};

/// What a message says. The first group are requests to memories, the second requests to storage, the
/// third what a memory and storage say to each other, the fourth answers. Block numbers count blocks of
/// 4096 bytes of a file; `off` is in bytes into the block, `len` and `size` are in bytes.
#[derive(Clone, Debug, Drop)]
pub enum Body {
    // To memories.
    /// Who owns the region?
    Find {
        pid: Pid,
        region: RegionNo,
    },
    /// The line's bytes and permissions are asked for.
    Read {
        pid: Pid,
        line: LineNo,
    },
    /// Bytes are written into a page.
    Write {
        patch: Patch,
    },
    /// The same bytes are written into the log of the owner's secondary.
    LogWrite {
        patch: Patch,
    },
    /// An answer is asked for once the log is empty.
    Drain,
    /// A region gets its owner.
    SetHome {
        pid: Pid,
        region: RegionNo,
        owner: MemId,
        role: Role,
    },
    /// The areas of a region become these.
    SetAreas {
        pid: Pid,
        region: RegionNo,
        areas: AreaRuns,
        role: Role,
    },
    /// The areas of a region are asked for.
    GetAreas {
        pid: Pid,
        region: RegionNo,
    },
    /// Pages of a region are unmapped, and its areas become these.
    Unmap {
        pid: Pid,
        region: RegionNo,
        first: Vpn,
        pages: u64,
        areas: AreaRuns,
        role: Role,
    },
    /// The child's areas and pages of these regions become the parent's.
    CopySpace {
        parent: Pid,
        child: Pid,
        regions: Seq<RegionNo>,
        role: Role,
    },
    /// All of a space is dropped.
    DropSpace {
        pid: Pid,
    },
    /// Bytes of a file, which lie within one block.
    FileRead {
        file: FileNo,
        block: u64,
        off: u64,
        len: u64,
    },
    /// Bytes of a file are written within one block.
    FileWrite {
        file: FileNo,
        block: u64,
        off: u64,
        bytes: Bytes,
    },
    /// A file's size becomes this.
    FileCut {
        file: FileNo,
        size: u64,
    },
    /// The homes and areas that a memory keeps in a role are asked for; they are those of memory `of`.
    PullMeta {
        of: MemId,
        role: Role,
    },
    /// The homes and areas that a memory keeps in a role become these.
    PushMeta {
        role: Role,
        homes: Seq<HomeEntry>,
        areas: Seq<SpaceAreas>,
    },
    /// The pages of a region are asked for.
    PullPages {
        pid: Pid,
        region: RegionNo,
    },
    /// The pages of a region become these.
    PushImages {
        pid: Pid,
        region: RegionNo,
        pages: Seq<PageImage>,
    },

    // To storage.
    /// The images of these pages are dropped.
    ImageDrop {
        pid: Pid,
        first: Vpn,
        pages: u64,
    },
    /// The child's images of these regions become the parent's.
    ImageCopy {
        parent: Pid,
        child: Pid,
        regions: Seq<RegionNo>,
    },
    /// The images of a space are dropped.
    ImageFree {
        pid: Pid,
    },
    /// The images of a region are asked for.
    PullImages {
        pid: Pid,
        region: RegionNo,
    },
    /// The images of a region become these.
    ResetImages {
        pid: Pid,
        region: RegionNo,
        pages: Seq<PageImage>,
    },
    /// How long is the file?
    FileSize {
        file: FileNo,
    },
    /// Which file has the name?
    NameGet {
        name: Bytes,
    },
    /// The file with the name, which is made where there is none.
    NameMake {
        name: Bytes,
    },
    /// The name is removed.
    NameCut {
        name: Bytes,
    },
    /// All names are asked for.
    NameAll,
    /// The file is removed where it has no name.
    FileFree {
        file: FileNo,
    },

    // Between a memory and storage.
    /// A batch of patches for the images.
    Backup {
        patches: Seq<Patch>,
    },
    /// The images have the batch.
    BackedUp,
    /// A block is asked for, so that the asker's read can be answered.
    BlockGet {
        file: FileNo,
        block: u64,
        off: u64,
        len: u64,
        asker: Place,
    },
    /// The block of 4096 bytes.
    BlockIs {
        file: FileNo,
        block: u64,
        off: u64,
        len: u64,
        asker: Place,
        bytes: Bytes,
    },
    /// The asker's bytes are written.
    BlockPut {
        file: FileNo,
        block: u64,
        off: u64,
        bytes: Bytes,
        asker: Place,
    },
    /// The size becomes what the asker wants.
    BlockCut {
        file: FileNo,
        size: u64,
        asker: Place,
    },

    // Answers.
    /// The region's owner, where it has one.
    OwnerIs {
        owner: Option<MemId>,
    },
    /// The line of 64 bytes.
    Line {
        perms: Perms,
        bytes: Bytes,
    },
    /// The request was refused.
    Refused(Why),
    /// The bytes were written.
    Wrote,
    /// The log has no room for the patch.
    LogFull,
    /// The log is empty.
    Drained,
    /// What was asked for was done.
    Done,
    /// The areas of the region.
    AreasAre {
        areas: AreaRuns,
    },
    /// Bytes of a file.
    FileBytes {
        bytes: Bytes,
    },
    /// The length of a file.
    SizeIs {
        size: u64,
    },
    /// The file, where there is one.
    NameIs {
        file: Option<FileNo>,
    },
    /// All names in the order of their bytes.
    Names {
        list: Seq<NameEntry>,
    },
    /// Homes and areas, each in rising order of process and region.
    Meta {
        homes: Seq<HomeEntry>,
        areas: Seq<SpaceAreas>,
    },
    /// Pages of a region, in rising order.
    Images {
        pages: Seq<PageImage>,
    },
}
