//! A memory crashes.

ghost use Rattle.std.specs.Prelude.{◌≡◌, ◌<◌, [], OnOk, false, true};
ghost use Rattle.lego_msg.specs.Crashes.{forgotten};
ghost use Rattle.protocol_engine.specs.Later.{called_by as called_as};

use crate::engine::Engine;
use crate::recovery::begin_healing;
use crate::running::Running;
use crate::send::show;
use lego_base::NoMemory;
use lego_msg::{Event, Place, Watch};

impl Engine {
    ghost use Rattle.lego_msg.specs.Track.{is_any_done, next_crash};
    ghost use Rattle.protocol_engine.specs.Later.{HasEntry, called_by};
    ghost use Rattle.protocol_engine.specs.Tracks.{Beyond, HasCount, SameMachine, track_of};
    ghost use Rattle.protocol_engine.specs.Ways.{CrashLowers, CrashStops, Crashes};

    /// The memory of the next entry of the crash list crashes, and its healing begins.
    pub fn crash<W: Watch>(&mut self, watch: &mut W) -> Result<(), NoMemory>
        requires owed { self.old.owed ≡ [] }
        requires done { (g : Beyond) → is_any_done (track_of self.old g) ≡ false }
        requires entry { HasEntry self.old.memories.items (next_crash self.old.shape self.old.clock) }
        requires count { HasCount self.old }
        requires some { 0 < self.old.table.memories }
        ensures came { OnOk result (Crashes W.told W.faults watch.old watch.new self.old self.new) }
        ensures stopped { CrashStops W.told W.faults watch.old watch.new self.old }
        ensures lower { OnOk result (CrashLowers self.old self.new) }
        ensures machine { SameMachine self.old self.new }
        ensures runs { OnOk result (called_by self.new.current ≡ called_by self.old.current) }
    {
        let Some(entry) = self.next_entry() else {
            unreachable!()
        };
        let number = entry.memory;
        let memory = &mut self.memories[number.0 as usize];
        let Some(inc) = memory.inc().checked_add(1) else {
            return Err(NoMemory);
        };
        let Some(passed) = self.clock.passed.checked_add(1) else {
            return Err(NoMemory);
        };
        memory.reset();
        begin_healing(&mut self.healing, self.alloc, number, &self.table)?;
        self.net.lose(Place::Memory(number));
        forget(&mut self.current, Place::Memory(number));
        self.clock.passed = passed;
        show(
            Event::Crash {
                memory: number,
                inc,
            },
            watch,
        );
        Ok(())
    }
}

// What a place answered the open operation is forgotten.
fn forget(current: &mut Option<Running>, place: Place)
    ensures forgets { current.new ≡ forgotten place current.old }
    ensures runs { called_as current.new ≡ called_as current.old }
{
    let Some(mut running) = current.take() else {
        return;
    };
    running.forget(place);
    *current = Some(running);
}
