//! The message of a move.

ghost use Rattle.std.specs.Prelude.{◌≡◌};
ghost use Rattle.heal_steps.specs.Steps.{message_of, homes_and_lists};
ghost use Rattle.lego_msg.specs.Healing.{pages_in};

use crate::heal::HealMove;
use lego_base::{HomeEntry, PageImage, Seq, SpaceAreas};
use lego_msg::{Body, Move, Place};
use std::alloc::Global;

/// The message of a move, with what the move before it was answered. Takes no memory.
pub(crate) fn ask(alloc: Global, step: Move, got: Option<Body>) -> HealMove
    ensures { result ≡ message_of step got }
{
    match step {
        Move::Asks { to, body } => HealMove::Send(to, body),
        Move::HandsMeta { to, role } => {
            let (homes, areas) = meta_in(alloc, got);
            HealMove::Send(to, Body::PushMeta { role, homes, areas })
        }
        Move::HandsImages { to, pid, region } => {
            let pages = pages_in(alloc, got);
            HealMove::Send(to, Body::PushImages { pid, region, pages })
        }
        Move::HandsPages { pid, region } => {
            let pages = pages_in(alloc, got);
            HealMove::Send(Place::Storage, Body::ResetImages { pid, region, pages })
        }
    }
}

// The homes and areas of an answer, none where it has none.
fn meta_in(alloc: Global, got: Option<Body>) -> (Seq<HomeEntry>, Seq<SpaceAreas>)
    ensures { result ≡ homes_and_lists got }
{
    match got {
        Some(Body::Meta { homes, areas }) => (homes, areas),
        _ => (Seq::new(alloc), Seq::new(alloc)),
    }
}

// The pages of an answer, none where it has none.
fn pages_in(alloc: Global, got: Option<Body>) -> Seq<PageImage>
    ensures { result ≡ pages_in got }
{
    match got {
        Some(Body::Images { pages }) => pages,
        _ => Seq::new(alloc),
    }
}
