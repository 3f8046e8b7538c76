//! The targets of an operation, and which of them have answered.

ghost use Rattle.std.specs.Prelude.{◌≡◌, IfOk, false, map, true};
ghost use Rattle.std.specs.List.{list_all};
ghost use Rattle.lego_msg.specs.Places.{same_place};
ghost use Rattle.op_track.specs.Targets.{silent, set_to, has_answered};

use lego_base::{NoMemory, OpNo};
use lego_msg::Place;
use std::alloc::{AllocError, Global};
use std::marker::Model;

/// A target of an operation, and whether it has answered since its last crash.
#[derive(Clone, Copy, Debug, PartialEq, Eq)]
pub struct Target {
    pub place: Place,
    pub answered: bool,
}

/// An operation's number and targets, and which of them have answered since their last crash.
#[derive(Debug, Drop)]
pub struct Op {
    number: OpNo,
    targets: Vec<Target>,
}

impl Model for Op {
    ghost use Rattle.op_track.specs.Tracked.{Tracked};

    ghost Value = { Tracked };

    ghost view = { λ o. record { number = o.number; targets = o.targets.items } };
}

impl Op {
    /// An operation with its targets, none of which has answered.
    pub fn new(alloc: Global, number: OpNo, targets: &[Place]) -> Result<Op, NoMemory>
        ensures { IfOk result (λ o. o ≡ record { number = number; targets = map silent targets.now }) }
    {
        let targets = all_silent(alloc, targets)?;
        Ok(Op { number, targets })
    }

    /// The operation's number.
    pub fn number(&self) -> OpNo
        ensures { result ≡ self.now.number }
    {
        self.number
    }

    /// A place answered. Where it is no target, nothing changes.
    pub fn answered(&mut self, place: Place)
        ensures { self.new ≡ record self.old { targets = map (set_to true place) self.old.targets } }
    {
        set_all(self.targets.as_mut_slice(), place, true);
    }

    /// A place crashed: what it answered is forgotten.
    pub fn crashed(&mut self, place: Place)
        ensures { self.new ≡ record self.old { targets = map (set_to false place) self.old.targets } }
    {
        set_all(self.targets.as_mut_slice(), place, false);
    }

    /// Whether each target has answered since its last crash.
    pub fn complete(&self) -> bool
        ensures { result ≡ list_all has_answered self.now.targets }
    {
        self.targets.iter().all(|target| target.answered)
    }
}

// Targets of which none has answered.
fn all_silent(alloc: Global, places: &[Place]) -> Result<Vec<Target>, AllocError>
    ensures { IfOk result (λ targets. targets.items ≡ map silent places.now) }
{
    places.iter().map(|place| silent(*place)).collect(alloc)
}

fn silent(place: Place) -> Target
    ensures { result ≡ silent place }
{
    Target {
        place,
        answered: false,
    }
}

// Sets whether the targets that are this place have answered.
fn set_all(targets: &mut [Target], place: Place, answered: bool)
    ensures { targets.new ≡ map (set_to answered place) targets.old }
{
    for target in targets.iter_mut() {
        *target = with_answer(*target, place, answered);
    }
}

fn with_answer(target: Target, place: Place, answered: bool) -> Target
    ensures { result ≡ set_to answered place target }
{
    if is_same(target.place, place) {
        Target { answered, ..target }
    } else {
        target
    }
}

fn is_same(a: Place, b: Place) -> bool
    ensures { result ≡ same_place a b }
{
    a == b
}
