//! A cluster taken apart, and put together.

ghost use Rattle.std.specs.Prelude.{◌≡◌};
ghost use Rattle.cluster.specs.Apart.{MayGoOn, whole_in};

use crate::Cluster;
use lego_base::{Halt, Seq, Shape};
use lego_msg::Clock;
use mem_monitor::Memory;
use net_fabric::Net;
use placement::Table;
use protocol_engine::Engine;
use std::alloc::Global;
use storage_monitor::Store;

/// How far a run is.
#[derive(Clone, Copy, Debug)]
pub struct Pace {
    pub delivered: u64, // all deliveries so far
    pub next: u64, // the number of the next operation
    pub clock: Clock,
    pub halt: Option<Halt>, // the halt that is kept
}

/// All that a cluster holds between calls.
#[derive(Drop)]
pub struct ClusterParts {
    pub alloc: Global,
    pub memories: Vec<Memory>, // by number
    pub store: Store,
    pub net: Net,
    pub table: Table,
    pub shape: Shape,
    pub pace: Pace,
}

impl Cluster {
    /// Takes a cluster apart. Takes no memory.
    pub fn into_parts(self) -> ClusterParts
        ensures whole { whole_in result ≡ self }
        ensures goes_on { MayGoOn (whole_in result) }
    {
        let Cluster { engine, halt } = self;
        let Engine {
            alloc,
            shape,
            memories,
            store,
            net,
            delivered,
            next,
            clock,
            table,
            ..
        } = engine;
        ClusterParts {
            alloc,
            memories,
            store,
            net,
            table,
            shape,
            pace: Pace {
                delivered,
                next,
                clock,
                halt,
            },
        }
    }

    /// Puts a cluster together, which goes on from these parts. Unless a halt is kept no crash may be due, and the table counts
    /// the memories of the machine. Takes no memory.
    pub fn from_parts(parts: ClusterParts) -> Cluster
        requires { MayGoOn (whole_in parts) }
        ensures { result ≡ whole_in parts }
    {
        let ClusterParts {
            alloc,
            memories,
            store,
            net,
            table,
            shape,
            pace,
        } = parts;
        let engine = Engine {
            alloc,
            shape,
            memories,
            store,
            net,
            owed: Seq::new(alloc),
            delivered: pace.delivered,
            next: pace.next,
            current: None,
            healing: None,
            clock: pace.clock,
            table,
        };
        Cluster {
            engine,
            halt: pace.halt,
        }
    }
}
