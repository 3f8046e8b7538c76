//! The first messages of operations on files and of healing: a row of the definitions each.

ghost use Rattle.std.specs.Prelude.{◌≡◌, ◌<◌, IfOk};
ghost use Rattle.lego_msg.specs.Places.{cache_of};

use crate::issuer::Issuer;
use lego_base::{Bytes, FileNo, MemId, NoMemory, Seq};
use lego_msg::{Body, Message, Place};

impl Issuer {
    ghost use Rattle.cluster_ops.specs.Issued.{first_of};
    ghost use Rattle.lego_msg.specs.declared.operation.Operation.TheVariants.{AsksSize, CutsFile, CutsName, FreesFile, GetsName, Heals, ListsNames, MakesName, ReadsFile, WritesFile};

    pub(crate) fn reads_file(
        self,
        file: FileNo,
        block: u64,
        off: u64,
        len: u64,
    ) -> Result<Seq<Message>, NoMemory>
        requires { 0 < self.memories }
        ensures { IfOk result (λ list. list ≡ first_of self (ReadsFile file block off len)) }
    {
        let body = Body::FileRead {
            file,
            block,
            off,
            len,
        };
        self.one(Place::Memory(cache(file, self.memories)), body)
    }

    pub(crate) fn writes_file(
        self,
        file: FileNo,
        block: u64,
        off: u64,
        bytes: &Bytes,
    ) -> Result<Seq<Message>, NoMemory>
        requires { 0 < self.memories }
        ensures { IfOk result (λ list. list ≡ first_of self (WritesFile file block off bytes.now)) }
    {
        let bytes = bytes.clone()?;
        let body = Body::FileWrite {
            file,
            block,
            off,
            bytes,
        };
        self.one(Place::Memory(cache(file, self.memories)), body)
    }

    pub(crate) fn cuts_file(self, file: FileNo, size: u64) -> Result<Seq<Message>, NoMemory>
        requires { 0 < self.memories }
        ensures { IfOk result (λ list. list ≡ first_of self (CutsFile file size)) }
    {
        let to = cache(file, self.memories);
        self.one(Place::Memory(to), Body::FileCut { file, size })
    }

    pub(crate) fn asks_size(self, file: FileNo) -> Result<Seq<Message>, NoMemory>
        ensures { IfOk result (λ list. list ≡ first_of self (AsksSize file)) }
    {
        self.one(Place::Storage, Body::FileSize { file })
    }

    pub(crate) fn gets_name(self, name: &Bytes) -> Result<Seq<Message>, NoMemory>
        ensures { IfOk result (λ list. list ≡ first_of self (GetsName name.now)) }
    {
        let name = name.clone()?;
        self.one(Place::Storage, Body::NameGet { name })
    }

    pub(crate) fn makes_name(self, name: &Bytes) -> Result<Seq<Message>, NoMemory>
        ensures { IfOk result (λ list. list ≡ first_of self (MakesName name.now)) }
    {
        let name = name.clone()?;
        self.one(Place::Storage, Body::NameMake { name })
    }

    pub(crate) fn cuts_name(self, name: &Bytes) -> Result<Seq<Message>, NoMemory>
        ensures { IfOk result (λ list. list ≡ first_of self (CutsName name.now)) }
    {
        let name = name.clone()?;
        self.one(Place::Storage, Body::NameCut { name })
    }

    pub(crate) fn lists_names(self) -> Result<Seq<Message>, NoMemory>
        ensures { IfOk result (λ list. list ≡ first_of self ListsNames) }
    {
        self.one(Place::Storage, Body::NameAll)
    }

    pub(crate) fn frees_file(self, file: FileNo) -> Result<Seq<Message>, NoMemory>
        ensures { IfOk result (λ list. list ≡ first_of self (FreesFile file)) }
    {
        self.one(Place::Storage, Body::FileFree { file })
    }

    pub(crate) fn heals(self, to: Place, body: &Body) -> Result<Seq<Message>, NoMemory>
        ensures { IfOk result (λ list. list ≡ first_of self (Heals to body.now)) }
    {
        let body = copied(body)?;
        self.one(to, body)
    }
}

fn copied(body: &Body) -> Result<Body, NoMemory>
    ensures { IfOk result (λ copy. copy ≡ body.now) }
{
    let copy = body.clone()?;
    Ok(copy)
}

/// The memory that caches the blocks of a file.
pub(crate) fn cache(file: FileNo, memories: u32) -> MemId
    requires { 0 < memories }
    ensures { result ≡ record { 0 = cache_of memories file.0 } }
{
    MemId(file.0 % memories)
}
