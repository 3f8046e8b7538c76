//! The machine under the kernel.
ghost use Rattle.std.specs.Prelude.{◌≡◌, ◌+◌, ◌<◌, ◌≤◌, ℕ, true, None, List, [], ◌∷◌, OnOk, IfOk, IfSome, length, max};
ghost use Rattle.lego_base.specs.declared.sizes.TheConstants.{LONGEST_FILE, PAGES_END, USER_END};
ghost use Rattle.lego_base.specs.Files.{file_bytes, is_file, named};
ghost use Rattle.lego_base.specs.Pieces.{piece};
ghost use Rattle.lego_base.specs.Space.{no_space, permits};
ghost use Rattle.area_list.specs.Runs.{cut_runs};
ghost use Rattle.linux_model.specs.Limits.{RUNS};
ghost use Rattle.linux_model.specs.Effects.{Effect, AsksSize, AsksSpace, AsksSpan, Copies, CopyOut, CutsFile, Drops, Fills, FreesFile, LooksUp, MakesFile, Maps, Protects, Puts, ReadsFile, Unlinks, Unmaps, Writes, WritesFile};
ghost use Rattle.linux_model.specs.Held.{Held};
ghost use Rattle.call_machine.specs.Effects.{copied, copied_in, made_file, FillsPage, KeepsBeside, KeepsPages};

use area_list::Areas;
use kernel_objects::Stream;
use lego_base::{Bytes, FileNo, Halt, Pid, Vpn};
use std::alloc::Global;

/// What a system call asks of spaces and files, and shows.
///
/// Each method does the effects that its clause `does` names, exactly, or stops; where it stops, some first ones of what
/// they show were shown, and the call ends. Addresses and lengths are in bytes, page numbers are addresses divided by 4096.
pub trait Machine {
    ghost use Rattle.call_machine.specs.Lawful.{Lawful};

    /// What it holds of the plain kernel.
    ghost held: { Self → Held };

    /// Effects happened, in order, between two states.
    ghost does: { Self → Self → List Effect → Type 0 };

    /// The machine stopped while it did effects.
    ghost stops: { Self → Self → List Effect → Type 0 };

    /// Whether each of `len` bytes may be read (`need` 1) or written (2). The areas that they meet are asked for. Bytes that
    /// may be are below the end of user space.
    fn check_span(&mut self, pid: Pid, at: u64, len: u64, need: u8) -> Result<bool, Halt>
        ensures does { OnOk result (does self.old self.new (AsksSpan pid.0 at len ∷ [])) }
        ensures answer { IfOk result (λ good. good ≡ permits ((held self.old).space pid.0) need at len) }
        ensures within { IfOk result (λ good. good ≡ true → 0 < len → at + len ≤ USER_END) }
        ensures stops { stops self.old self.new (AsksSpan pid.0 at len ∷ []) };

    /// The areas of a process. All of them are asked for.
    fn areas(&mut self, alloc: Global, pid: Pid) -> Result<Areas, Halt>
        ensures does { OnOk result (does self.old self.new (AsksSpace pid.0 ∷ [])) }
        ensures answer { IfOk result (λ areas. areas ≡ ((held self.old).space pid.0).areas) }
        ensures stops { stops self.old self.new (AsksSpace pid.0 ∷ []) };

    /// Copies bytes from a space; none where one of them may not be read. No byte outside user space may be.
    fn copy_in(&mut self, alloc: Global, pid: Pid, at: u64, len: u64) -> Result<Option<Bytes>, Halt>
        ensures does { OnOk result (does self.old self.new (copied_in ((held self.old).space pid.0) pid.0 at len)) }
        ensures answer { IfOk result (λ bytes. bytes ≡ copied ((held self.old).space pid.0) at len) }
        ensures within { IfOk result (λ bytes. IfSome bytes (λ b. at + len ≤ max at USER_END)) }
        ensures stops { stops self.old self.new (copied_in ((held self.old).space pid.0) pid.0 at len) };

    /// Copies bytes to a space.
    fn copy_out(&mut self, pid: Pid, at: u64, bytes: &[u8]) -> Result<(), Halt>
        requires good { permits ((held self.old).space pid.0) 2 at (length bytes.now) ≡ true }
        ensures does { OnOk result (does self.old self.new (Writes CopyOut pid.0 at bytes.now ∷ [])) }
        ensures stops { stops self.old self.new (Writes CopyOut pid.0 at bytes.now ∷ []) };

    /// The areas of a process become these, with more pages mapped. A page that is mapped keeps its permissions.
    fn map(&mut self, pid: Pid, areas: Areas) -> Result<(), Halt>
        requires keeps { KeepsPages ((held self.old).space pid.0).areas areas }
        ensures does { OnOk result (does self.old self.new (Maps pid.0 areas ∷ [])) }
        ensures stops { stops self.old self.new (Maps pid.0 areas ∷ []) };

    /// The areas of a process become these, once the permissions of `pages` pages starting at `first` have changed.
    fn protect(&mut self, pid: Pid, first: Vpn, pages: u64, areas: Areas) -> Result<(), Halt>
        requires keeps { KeepsBeside first.0 pages ((held self.old).space pid.0).areas areas }
        requires within { first.0 + pages ≤ PAGES_END }
        ensures does { OnOk result (does self.old self.new (Protects pid.0 first.0 pages areas ∷ [])) }
        ensures stops { stops self.old self.new (Protects pid.0 first.0 pages areas ∷ []) };

    /// `pages` pages, starting at `first`, aren't mapped any more.
    fn unmap(&mut self, pid: Pid, first: Vpn, pages: u64) -> Result<(), Halt>
        requires within { first.0 + pages ≤ PAGES_END }
        requires few { length (cut_runs first.0 pages ((held self.old).space pid.0).areas) ≤ RUNS }
        ensures does { OnOk result (does self.old self.new (Unmaps pid.0 first.0 pages ∷ [])) }
        ensures stops { stops self.old self.new (Unmaps pid.0 first.0 pages ∷ []) };

    /// The loader writes bytes of one page.
    fn fill(&mut self, pid: Pid, at: u64, bytes: &[u8]) -> Result<(), Halt>
        requires page { FillsPage ((held self.old).space pid.0) at bytes.now }
        ensures does { OnOk result (does self.old self.new (Fills pid.0 at bytes.now ∷ [])) }
        ensures stops { stops self.old self.new (Fills pid.0 at bytes.now ∷ []) };

    /// A child without a space gets a copy of its parent's.
    fn copy_space(&mut self, parent: Pid, child: Pid) -> Result<(), Halt>
        requires other { child.0 ≡ parent.0 → ⊥ }
        requires bare { (held self.old).space child.0 ≡ no_space }
        ensures does { OnOk result (does self.old self.new (Copies parent.0 child.0 ∷ [])) }
        ensures stops { stops self.old self.new (Copies parent.0 child.0 ∷ []) };

    /// The space of a process goes.
    fn drop_space(&mut self, pid: Pid) -> Result<(), Halt>
        ensures does { OnOk result (does self.old self.new (Drops pid.0 ∷ [])) }
        ensures stops { stops self.old self.new (Drops pid.0 ∷ []) };

    /// The file with a name.
    fn find(&mut self, name: &[u8]) -> Result<Option<FileNo>, Halt>
        ensures does { OnOk result (does self.old self.new (LooksUp name.now ∷ [])) }
        ensures answer { IfOk result (λ file. file ≡ named (held self.old).names name.now) }
        ensures stops { stops self.old self.new (LooksUp name.now ∷ []) };

    /// A new file under a name that none has; none where there are 1024 files.
    fn make(&mut self, name: &[u8]) -> Result<Option<FileNo>, Halt>
        requires absent { named (held self.old).names name.now ≡ None }
        ensures does { OnOk result (does self.old self.new (MakesFile name.now ∷ [])) }
        ensures answer { IfOk result (λ file. file ≡ made_file (held self.old)) }
        ensures stops { stops self.old self.new (MakesFile name.now ∷ []) };

    /// The name goes.
    fn unlink(&mut self, name: &[u8]) -> Result<(), Halt>
        ensures does { OnOk result (does self.old self.new (Unlinks name.now ∷ [])) }
        ensures stops { stops self.old self.new (Unlinks name.now ∷ []) };

    /// A file goes, unless it has a name.
    fn free(&mut self, file: FileNo) -> Result<(), Halt>
        ensures does { OnOk result (does self.old self.new (FreesFile file.0 ∷ [])) }
        ensures stops { stops self.old self.new (FreesFile file.0 ∷ []) };

    /// The bytes of a file, counted.
    fn size(&mut self, file: FileNo) -> Result<u64, Halt>
        requires there { is_file (held self.old).files file.0 ≡ true }
        ensures does { OnOk result (does self.old self.new (AsksSize file.0 ∷ [])) }
        ensures answer { IfOk result (λ size. size ≡ length (file_bytes (held self.old).files file.0)) }
        ensures stops { stops self.old self.new (AsksSize file.0 ∷ []) };

    /// `len` bytes of a file, starting at an offset.
    fn read(&mut self, alloc: Global, file: FileNo, off: u64, len: u64) -> Result<Bytes, Halt>
        requires there { is_file (held self.old).files file.0 ≡ true }
        requires within { 0 < len → off + len ≤ length (file_bytes (held self.old).files file.0) }
        ensures does { OnOk result (does self.old self.new (ReadsFile file.0 off len ∷ [])) }
        ensures answer { IfOk result (λ bytes. bytes ≡ piece (file_bytes (held self.old).files file.0) off len) }
        ensures stops { stops self.old self.new (ReadsFile file.0 off len ∷ []) };

    /// Writes bytes to a file at an offset. A gap before them reads 0.
    fn write(&mut self, file: FileNo, off: u64, bytes: &[u8]) -> Result<(), Halt>
        requires there { is_file (held self.old).files file.0 ≡ true }
        requires within { off + length bytes.now ≤ LONGEST_FILE }
        ensures does { OnOk result (does self.old self.new (WritesFile file.0 off bytes.now ∷ [])) }
        ensures stops { stops self.old self.new (WritesFile file.0 off bytes.now ∷ []) };

    /// The size of a file becomes this. A file that grows gets zeros.
    fn cut(&mut self, file: FileNo, size: u64) -> Result<(), Halt>
        requires there { is_file (held self.old).files file.0 ≡ true }
        requires within { size ≤ LONGEST_FILE }
        ensures does { OnOk result (does self.old self.new (CutsFile file.0 size ∷ [])) }
        ensures stops { stops self.old self.new (CutsFile file.0 size ∷ []) };

    /// Shows that bytes went to standard output or standard error, which took all of them.
    fn put_out(&mut self, stream: Stream, bytes: &[u8])
        ensures does { does self.old self.new (Puts stream bytes.now ∷ []) };

    /// The laws of `held`, `does` and `stops`.
    ghost lawful: { Lawful held does stops };
}
