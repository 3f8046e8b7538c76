//! The bytes of the loads, page by page.

ghost use Rattle.std.specs.Prelude.{◌≡◌, ◌<◌, ◌^◌, [], ◌∷◌, All, OnOk};
ghost use Rattle.elf_image.specs.Image.{IsBoundedSegment};
ghost use Rattle.space_rules.specs.Mapped.{image_areas_of};
ghost use Rattle.linux_model.specs.Loading.{load_fills, page_fill};
ghost use Rattle.space_loading.specs.Pages.{HasPart};

use crate::pages::{first_byte, last_end, loaded_between, next_page};
use call_machine::Machine;
use elf_image::Segment;
use lego_base::{Halt, Pid};
use std::alloc::Global;

// Fills each page in which a load has a byte, in rising order: from the first such byte to the last, with 0 between loads.
pub(crate) fn fill_loads<M: Machine>(
    machine: &mut M,
    alloc: Global,
    pid: Pid,
    segments: &[Segment],
) -> Result<(), Halt>
    requires bounded { All IsBoundedSegment segments.now }
    requires mapped { ((M.held machine.old).space pid.0).areas ≡ image_areas_of segments.now }
    ensures does { OnOk result (M.does machine.old machine.new (load_fills pid.0 segments.now)) }
    ensures stops { M.stops machine.old machine.new (load_fills pid.0 segments.now) }
{
    let mut from = 0;
    while let Some(page) = next_page(segments, from) {
        fill_page(machine, alloc, pid, segments, page)?;
        from = page + 1;
    }
    Ok(())
}

// Fills one page.
fn fill_page<M: Machine>(
    machine: &mut M,
    alloc: Global,
    pid: Pid,
    segments: &[Segment],
    page: u64,
) -> Result<(), Halt>
    requires bounded { All IsBoundedSegment segments.now }
    requires part { HasPart segments.now page }
    requires low { page < 2 ^ 26 }
    requires mapped { ((M.held machine.old).space pid.0).areas ≡ image_areas_of segments.now }
    ensures does { OnOk result (M.does machine.old machine.new (page_fill pid.0 segments.now page ∷ [])) }
    ensures stops { M.stops machine.old machine.new (page_fill pid.0 segments.now page ∷ []) }
{
    let first = first_byte(segments, page);
    let bytes = loaded_between(alloc, segments, first, last_end(segments, page))?;
    machine.fill(pid, first, bytes.as_slice())
}
