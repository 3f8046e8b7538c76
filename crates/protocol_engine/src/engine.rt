//! The components, what is pending, and how far the run is.

use crate::recovery::Recovery;
use crate::running::Running;
use lego_base::Shape;
use lego_msg::{Clock, Outbox};
use mem_monitor::Memory;
use net_fabric::Net;
use placement::Table;
use std::alloc::Global;
use storage_monitor::Store;

/// The components, what is pending, and how far the run is: all of a track but what marks, the plain map and caches are.
#[derive(Drop)]
pub struct Engine {
    pub alloc: Global,
    pub shape: Shape, // the machine; it never changes
    pub memories: Vec<Memory>,
    pub store: Store,
    pub net: Net,
    pub owed: Outbox, // what the receiver of the last message has still to send
    pub delivered: u64, // all deliveries so far
    pub next: u64, // the number of the next operation
    pub current: Option<Running>,
    pub healing: Option<Recovery>,
    pub clock: Clock,
    pub table: Table, // the owners of regions
}
