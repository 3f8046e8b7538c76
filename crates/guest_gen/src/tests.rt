//! The first programs and their descriptions, against the sums that `docs/generated` computes by itself.

use crate::{make, plan_text};
use std::alloc::Global;
use std::test::Fail;

// The FNV-1a sum of bytes.
fn sum(bytes: &[u8]) -> u32 {
    let mut total = 2166136261u32;
    for byte in bytes {
        total = (total ^ *byte as u32).wrapping_mul(16777619);
    }
    total
}

// The sums of a seed's image and of its description's text.
fn sums(alloc: Global, seed: u32) -> Result<(u32, u32), Fail> {
    let guest = make(alloc, seed, "g")?;
    let text = plan_text(alloc, &guest.plan)?;
    Ok((sum(guest.image.as_slice()), sum(text.as_slice())))
}

#[test]
fn programs_are_those_of_another_program(rt: HostRuntime) -> Result<(), Fail> {
    for (seed, image, text) in [
        (0, 1204026983, 3973089560),
        (1, 1649319970, 3613069692),
        (2, 4284741302, 166057799),
        (3, 1049095840, 2828800032),
        (7, 141877711, 273684045),
        (4294967295, 1184882434, 1944911879),
    ] {
        assert_eq!(rt; sums(rt.alloc(), seed)?, (image, text));
    }
    Ok(())
}
