//! A memory component.

ghost use Rattle.std.specs.Prelude.{◌≡◌, ◌+◌, ◌<◌, ◌^◌, ◌++◌, [], ◌∷◌, IfOk, OnOk};
ghost use Rattle.lego_msg.specs.Form.{InForm};
ghost use Rattle.lego_msg.specs.Places.{memory};
ghost use Rattle.lego_msg.specs.State.{empty_mem, lost};
ghost use Rattle.lego_msg.specs.Table.{handled, reply};

use crate::asker::Asker;
use crate::keeper::Keeper;
use block_cache::Blocks;
use lego_base::{HomeEntry, MemId, NoMemory};
use lego_msg::{Body, Message, Outbox, Place};
use mem_log::Log;
use page_store::PageStore;
use std::alloc::Global;
use std::marker::Model;

/// A memory component (LegoOS's mComponent, section 4): it owns regions, and is the secondary of another memory.
#[derive(Debug, Drop)]
pub struct Memory {
    pub(crate) id: MemId,
    pub(crate) inc: u32, // how often it crashed
    pub(crate) main: Keeper,
    pub(crate) spare: Keeper, // for the memory whose secondary it is
    pub(crate) pages: PageStore,
    pub(crate) log: Log,
    pub(crate) drains: Vec<Asker>, // those that wait, oldest first
    pub(crate) blocks: Blocks,
}

impl Model for Memory {
    ghost use Rattle.lego_msg.specs.State.{Mem};

    ghost Value = { Mem };

    ghost use Rattle.mem_monitor.specs.Rows.{waiters};

    ghost view = { λ m. record {
      id = m.id.0;
      frames = m.pages.frames;
      log_room = m.log.room;
      cache_room = m.blocks.room;
      inc = m.inc;
      main = m.main;
      spare = m.spare;
      pages = m.pages.pages;
      log = m.log.patches;
      out = m.log.out;
      drains = waiters m.drains.items;
      blocks = m.blocks.blocks;
    } };
}

impl Memory {
    ghost use Rattle.mem_monitor.specs.Rows.{Row, asking};

    /// A memory that holds nothing: at most `frames` pages, `log_cap` patches and `cache_blocks` blocks.
    pub fn new(
        alloc: Global,
        id: MemId,
        frames: u32,
        log_cap: u32,
        cache_blocks: u32,
    ) -> Result<Memory, NoMemory>
        ensures { IfOk result (λ m. m ≡ empty_mem id.0 frames log_cap cache_blocks 0) }
    {
        let main = Keeper::new(alloc)?;
        let spare = Keeper::new(alloc)?;
        let pages = PageStore::new(alloc, frames)?;
        let log = Log::new(alloc, log_cap)?;
        let blocks = Blocks::new(alloc, cache_blocks)?;
        Ok(Memory {
            id,
            inc: 0,
            main,
            spare,
            pages,
            log,
            drains: Vec::new(alloc),
            blocks,
        })
    }

    /// The memory crashes: it holds nothing then, and counts the crash.
    pub fn reset(&mut self)
        requires { self.old.inc + 1 < 2 ^ 32 }
        ensures { self.new ≡ lost self.old }
    {
        self.inc += 1;
        self.main.clear();
        self.spare.clear();
        self.pages.clear();
        self.log.clear();
        self.drains.clear();
        self.blocks.clear();
    }

    /// How often it crashed.
    pub fn inc(&self) -> u32
        ensures { result ≡ self.now.inc }
    {
        self.inc
    }

    // Sends an answer.
    pub(crate) fn answer(&self, asker: Asker, body: Body, out: &mut Outbox) -> Result<(), NoMemory>
        ensures { OnOk result (out.new ≡ out.old ++ reply (memory self.now.id) (asking asker) body ∷ []) }
    {
        out.push(Message {
            from: Place::Memory(self.id),
            to: asker.place,
            op: asker.op,
            body,
        })
    }

    /// Handles a message: the memory's new state and the messages that it sends are those of the message table. After
    /// lack of memory nothing is promised of it, and the machine stops.
    pub fn handle(&mut self, alloc: Global, m: Message, out: &mut Outbox) -> Result<(), NoMemory>
        requires { InForm m.body }
        ensures { OnOk result (Row self.old self.new out.old out.new (handled self.old m)) }
    {
        let Message { from, op, body, .. } = m;
        let asker = Asker { place: from, op };
        match body {
            Body::Find { pid, region } => self.find(asker, pid, region, out),
            Body::Read { pid, line } => self.read(alloc, asker, pid, line, out),
            Body::Write { patch } => self.write(asker, &patch, out),
            Body::LogWrite { patch } => self.log_write(alloc, asker, patch, out),
            Body::Drain => self.drain(alloc, asker, out),
            Body::BackedUp => self.backed_up(alloc, out),
            Body::SetHome {
                pid,
                region,
                owner,
                role,
            } => self.set_home(asker, HomeEntry { pid, region, owner }, role, out),
            Body::SetAreas {
                pid,
                region,
                areas,
                role,
            } => self.set_areas(asker, pid, region, areas, role, out),
            Body::GetAreas { pid, region } => self.get_areas(alloc, asker, pid, region, out),
            Body::Unmap {
                pid,
                region,
                first,
                pages,
                areas,
                role,
            } => self.unmap(asker, pid, region, first, pages, areas, role, out),
            Body::CopySpace {
                parent,
                child,
                regions,
                role,
            } => self.copy_space(alloc, asker, parent, child, regions.as_slice(), role, out),
            Body::DropSpace { pid } => self.drop_space(asker, pid, out),
            Body::FileRead {
                file,
                block,
                off,
                len,
            } => self.file_read(alloc, asker, file, block, off, len, out),
            Body::BlockIs {
                file,
                block,
                off,
                len,
                asker: place,
                bytes,
            } => self.block_is(
                alloc,
                Asker { place, op },
                file,
                block,
                off,
                len,
                bytes,
                out,
            ),
            Body::FileWrite {
                file,
                block,
                off,
                bytes,
            } => self.file_write(asker, file, block, off, bytes, out),
            Body::FileCut { file, size } => self.file_cut(asker, file, size, out),
            Body::PullMeta { role, .. } => self.pull_meta(alloc, asker, role, out),
            Body::PushMeta { role, homes, areas } => self.push_meta(asker, role, homes, areas, out),
            Body::PullPages { pid, region } => self.pull_pages(alloc, asker, pid, region, out),
            Body::PushImages { pid, region, pages } => {
                self.push_images(asker, pid, region, pages.as_slice(), out)
            }
            _ => Ok(()),
        }
    }
}
