//! The storage component.

ghost use Rattle.std.specs.Prelude.{◌≡◌, ◌≤◌, ◌++◌, IfOk, OnOk, false, length, true};
ghost use Rattle.lego_base.specs.Files.{is_file};
ghost use Rattle.lego_base.specs.declared.sizes.TheConstants.{LONGEST_FILE};
ghost use Rattle.lego_msg.specs.Form.{HasFile, InForm, IsInBlock};
ghost use Rattle.lego_msg.specs.State.{empty_disk};
ghost use Rattle.lego_msg.specs.Table.{backup_row, block_cut_row, block_get_row, block_put_row, file_free_row, file_size_row, image_copy_row, image_drop_row, image_free_row, name_all_row, name_cut_row, name_get_row, name_make_row, pull_images_row, reset_images_row, stored};

use crate::reply::{Reply, says, tells};
use backup_images::Images;
use file_table::{FileFault, Files};
use lego_base::{FileNo, NoMemory, PageImage, Patch, Pid, RegionNo, Seq, Vpn};
use lego_msg::{Body, Message, Outbox, Place, Why};
use std::alloc::Global;
use std::marker::Model;

/// The storage component: images of pages, and files with names. Contracts see the record of these.
#[derive(Drop)]
pub struct Store {
    images: Images,
    files: Files,
}

impl Model for Store {
    ghost use Rattle.lego_msg.specs.State.{Disk};

    ghost Value = { Disk };

    ghost use Rattle.backup_images.specs.Segments.{images_in};

    ghost view = { λ s. record { images = images_in s.images; files = s.files } };
}

impl Store {
    ghost use Rattle.storage_monitor.specs.Answered.{is_about_images, sent};

    /// Storage without images and files, with this many blocks of 4096 bytes for files.
    pub fn new(alloc: Global, blocks: u32) -> Result<Store, NoMemory>
        ensures { IfOk result (λ s. s ≡ empty_disk blocks) }
    {
        let images = Images::new(alloc)?;
        let files = Files::new(alloc, blocks)?;
        Ok(Store { images, files })
    }

    /// Handles a message by the message table; what is sent goes to the end of `out`. If memory runs out, nothing is known of
    /// the store any more.
    pub fn handle(&mut self, alloc: Global, m: Message, out: &mut Outbox) -> Result<(), NoMemory>
        requires form { InForm m.body }
        requires there { HasFile self.old m.body }
        ensures state { OnOk result (self.new ≡ (stored self.old m).0) }
        ensures sent { OnOk result (out.new ≡ out.old ++ (stored self.old m).1) }
    {
        let Some(Reply { to, body }) = self.act(alloc, &m)? else {
            return Ok(());
        };
        out.push(Message {
            from: Place::Storage,
            to,
            op: m.op,
            body,
        })
    }

    /// Whether a file is there, which requests for its size or its bytes need.
    pub fn has_file(&self, file: FileNo) -> bool
        ensures { result ≡ is_file self.now.files.files file.0 }
    {
        self.files.has(file)
    }

    // Does what a message asks for, and gives the answer. These are the rows of images.
    fn act(&mut self, alloc: Global, m: &Message) -> Result<Option<Reply>, NoMemory>
        requires form { InForm m.now.body }
        requires there { HasFile self.old m.now.body }
        ensures { IfOk result (λ a. (self.new, sent m.now a) ≡ stored self.old m.now) }
    {
        match &m.body {
            Body::Backup { patches } => self.backup(m, patches.as_slice()),
            Body::ImageDrop { pid, first, pages } => self.image_drop(m, *pid, *first, *pages),
            Body::ImageCopy {
                parent,
                child,
                regions,
            } => self.image_copy(m, *parent, *child, regions.as_slice()),
            Body::ImageFree { pid } => self.image_free(m, *pid),
            Body::PullImages { pid, region } => self.pull_images(alloc, m, *pid, *region),
            Body::ResetImages { pid, region, pages } => {
                self.reset_images(m, *pid, *region, pages.as_slice())
            }
            _ => self.act_on_files(alloc, m),
        }
    }

    // The rows of files and names. A message without a row changes nothing, and nothing is sent.
    fn act_on_files(&mut self, alloc: Global, m: &Message) -> Result<Option<Reply>, NoMemory>
        requires files { is_about_images m.now.body ≡ false }
        requires form { InForm m.now.body }
        requires there { HasFile self.old m.now.body }
        ensures { IfOk result (λ a. (self.new, sent m.now a) ≡ stored self.old m.now) }
    {
        match &m.body {
            Body::BlockGet {
                file,
                block,
                off,
                len,
                asker,
            } => self.block_get(alloc, m, *file, *block, *off, *len, *asker),
            Body::BlockPut {
                file,
                block,
                off,
                bytes,
                asker,
            } => self.block_put(m, *file, *block, *off, bytes.as_slice(), *asker),
            Body::BlockCut { file, size, asker } => self.block_cut(m, *file, *size, *asker),
            Body::FileSize { file } => self.file_size(m, *file),
            Body::NameGet { name } => self.name_get(m, name.as_slice()),
            Body::NameMake { name } => self.name_make(m, name.as_slice()),
            Body::NameCut { name } => self.name_cut(m, name.as_slice()),
            Body::NameAll => self.name_all(alloc, m),
            Body::FileFree { file } => self.file_free(m, *file),
            _ => Ok(None),
        }
    }

    // The batch is laid over the images.
    fn backup(&mut self, m: &Message, patches: &[Patch]) -> Result<Option<Reply>, NoMemory>
        ensures { IfOk result (λ a. (self.new, sent m.now a) ≡ backup_row self.old m.now patches.now) }
    {
        self.images.apply(patches)?;
        says(m, Body::BackedUp)
    }

    // Images of pages are dropped.
    fn image_drop(
        &mut self,
        m: &Message,
        pid: Pid,
        first: Vpn,
        pages: u64,
    ) -> Result<Option<Reply>, NoMemory>
        ensures { IfOk result (λ a. (self.new, sent m.now a) ≡ image_drop_row self.old m.now pid.0 first.0 pages) }
    {
        self.images.drop_pages(pid, first, pages)?;
        says(m, Body::Done)
    }

    // The child's images of some regions become the parent's.
    fn image_copy(
        &mut self,
        m: &Message,
        parent: Pid,
        child: Pid,
        regions: &[RegionNo],
    ) -> Result<Option<Reply>, NoMemory>
        ensures { IfOk result (λ a. (self.new, sent m.now a) ≡ image_copy_row self.old m.now parent.0 child regions.now) }
    {
        self.images.copy_space(parent, child, regions)?;
        says(m, Body::Done)
    }

    // The images of a process are dropped.
    fn image_free(&mut self, m: &Message, pid: Pid) -> Result<Option<Reply>, NoMemory>
        ensures { IfOk result (λ a. (self.new, sent m.now a) ≡ image_free_row self.old m.now pid.0) }
    {
        self.images.drop_process(pid)?;
        says(m, Body::Done)
    }

    // The images of a region are given.
    fn pull_images(
        &mut self,
        alloc: Global,
        m: &Message,
        pid: Pid,
        region: RegionNo,
    ) -> Result<Option<Reply>, NoMemory>
        ensures { IfOk result (λ a. (self.new, sent m.now a) ≡ pull_images_row self.old m.now pid.0 region.0) }
    {
        let pages = Seq::from_vec(self.images.images_of(alloc, pid, region)?);
        says(m, Body::Images { pages })
    }

    // The images of a region become these.
    fn reset_images(
        &mut self,
        m: &Message,
        pid: Pid,
        region: RegionNo,
        pages: &[PageImage],
    ) -> Result<Option<Reply>, NoMemory>
        ensures { IfOk result (λ a. (self.new, sent m.now a) ≡ reset_images_row self.old m.now pid.0 region.0 pages.now) }
    {
        self.images.reset(pid, region, pages)?;
        says(m, Body::Done)
    }

    // A block of a file is given.
    fn block_get(
        &mut self,
        alloc: Global,
        m: &Message,
        file: FileNo,
        block: u64,
        off: u64,
        len: u64,
        asker: Place,
    ) -> Result<Option<Reply>, NoMemory>
        requires { is_file self.old.files.files file.0 ≡ true }
        ensures { IfOk result (λ a. (self.new, sent m.now a) ≡ block_get_row self.old m.now file block off len asker) }
    {
        let bytes = self.files.read_block(alloc, file, block)?;
        says(
            m,
            Body::BlockIs {
                file,
                block,
                off,
                len,
                asker,
                bytes,
            },
        )
    }

    // Bytes of a block are written, or refused.
    fn block_put(
        &mut self,
        m: &Message,
        file: FileNo,
        block: u64,
        off: u64,
        bytes: &[u8],
        asker: Place,
    ) -> Result<Option<Reply>, NoMemory>
        requires there { is_file self.old.files.files file.0 ≡ true }
        requires within { IsInBlock block off (length bytes.now) }
        ensures { IfOk result (λ a. (self.new, sent m.now a) ≡ block_put_row self.old m.now file.0 block off bytes.now asker) }
    {
        match self.files.write_at(file, block * 4096 + off, bytes) {
            Ok(()) => tells(asker, Body::Wrote),
            Err(FileFault::StoreFull) => tells(asker, Body::Refused(Why::StoreFull)),
            Err(_) => Err(NoMemory),
        }
    }

    // The size of a file is set, or that is refused.
    fn block_cut(
        &mut self,
        m: &Message,
        file: FileNo,
        size: u64,
        asker: Place,
    ) -> Result<Option<Reply>, NoMemory>
        requires there { is_file self.old.files.files file.0 ≡ true }
        requires short { size ≤ LONGEST_FILE }
        ensures { IfOk result (λ a. (self.new, sent m.now a) ≡ block_cut_row self.old m.now file.0 size asker) }
    {
        match self.files.truncate(file, size) {
            Ok(()) => tells(asker, Body::Done),
            Err(FileFault::StoreFull) => tells(asker, Body::Refused(Why::StoreFull)),
            Err(_) => Err(NoMemory),
        }
    }

    // The size of a file is given.
    fn file_size(&mut self, m: &Message, file: FileNo) -> Result<Option<Reply>, NoMemory>
        requires { is_file self.old.files.files file.0 ≡ true }
        ensures { IfOk result (λ a. (self.new, sent m.now a) ≡ file_size_row self.old m.now file.0) }
    {
        let size = self.files.size(file);
        says(m, Body::SizeIs { size })
    }

    // A name is looked up.
    fn name_get(&mut self, m: &Message, name: &[u8]) -> Result<Option<Reply>, NoMemory>
        ensures { IfOk result (λ a. (self.new, sent m.now a) ≡ name_get_row self.old m.now name.now) }
    {
        let file = self.files.find(name);
        says(m, Body::NameIs { file })
    }

    // The file with a name, which is made where there is none and there is room for it.
    fn name_make(&mut self, m: &Message, name: &[u8]) -> Result<Option<Reply>, NoMemory>
        ensures { IfOk result (λ a. (self.new, sent m.now a) ≡ name_make_row self.old m.now name.now) }
    {
        match self.files.make(name) {
            Ok(file) => says(m, Body::NameIs { file: Some(file) }),
            Err(FileFault::NoRoom) => says(m, Body::Refused(Why::NoRoom)),
            Err(_) => Err(NoMemory),
        }
    }

    // A name is removed.
    fn name_cut(&mut self, m: &Message, name: &[u8]) -> Result<Option<Reply>, NoMemory>
        ensures { IfOk result (λ a. (self.new, sent m.now a) ≡ name_cut_row self.old m.now name.now) }
    {
        self.files.unlink(name);
        says(m, Body::Done)
    }

    // All names are given.
    fn name_all(&mut self, alloc: Global, m: &Message) -> Result<Option<Reply>, NoMemory>
        ensures { IfOk result (λ a. (self.new, sent m.now a) ≡ name_all_row self.old m.now) }
    {
        let list = Seq::from_vec(self.files.names(alloc)?);
        says(m, Body::Names { list })
    }

    // A file without a name is removed.
    fn file_free(&mut self, m: &Message, file: FileNo) -> Result<Option<Reply>, NoMemory>
        ensures { IfOk result (λ a. (self.new, sent m.now a) ≡ file_free_row self.old m.now file.0) }
    {
        self.files.free(file);
        says(m, Body::Done)
    }
}
