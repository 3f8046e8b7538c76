//! ELF files and what is read from them.

use crate::hi_file::HI;
use elf_image::{ImageFault, read_image};
use lego_base::Perms;
use std::alloc::{AllocError, Global};
use std::test::Fail;

/// The file with one byte changed, and the fault that is then the first.
const FAULTS: [(usize, u8, ImageFault); 17] = [
    (1, 0x4c, ImageFault::Magic),
    (4, 1, ImageFault::Class),
    (5, 2, ImageFault::Class),
    (16, 3, ImageFault::Kind),
    (18, 62, ImageFault::Machine),
    (48, 5, ImageFault::Abi),
    (54, 32, ImageFault::TableOutside),
    (39, 0xff, ImageFault::TableOutside), // an offset close to 2^64
    (64, 3, ImageFault::Interp),
    (96, 159, ImageFault::SegmentOutside),
    (79, 0xff, ImageFault::SegmentOutside),
    (104, 157, ImageFault::SegmentSize),
    (107, 2, ImageFault::SegmentSize), // 32 MiB and 158 bytes
    (82, 0, ImageFault::SegmentAddress),
    (87, 0xff, ImageFault::SegmentAddress),
    (104, 0, ImageFault::NoSegment),
    (68, 6, ImageFault::EntryOutside),
];

fn fault_of(alloc: Global, file: &[u8]) -> Option<ImageFault> {
    read_image(alloc, file).err()
}

// The file with a second header like the first, whose load begins at 0x10000 and this.
fn with_second_load(alloc: Global, low: u8) -> Result<Vec<u8>, AllocError> {
    let mut file = Vec::new(alloc);
    file.extend_from_slice(&HI[..56])?;
    file.extend_from_slice(&[2, 0])?;
    file.extend_from_slice(&HI[58..120])?;
    file.extend_from_slice(&HI[64..80])?;
    file.extend_from_slice(&[low])?;
    file.extend_from_slice(&HI[81..120])?;
    Ok(file)
}

#[test]
fn a_program_is_read(rt: HostRuntime) -> Result<(), Fail> {
    let image = read_image(rt.alloc(), &HI)?;
    assert_eq!(rt; image.entry(), 0x10078);
    assert_eq!(rt; image.brk(), 0x11000);
    assert_eq!(rt; image.segments().len(), 1);
    for segment in image.segments() {
        assert_eq!(rt; segment.vaddr, 0x10000);
        assert_eq!(rt; segment.memsz, 158);
        assert_eq!(rt; segment.perms, Perms::READ | Perms::EXEC);
        assert_eq!(rt; segment.bytes.as_slice(), HI.as_slice());
    }
    Ok(())
}

#[test]
fn each_fault_has_its_file(rt: HostRuntime) {
    for (at, byte, fault) in FAULTS {
        let mut file = HI;
        assert!(rt; at < 158);
        file[at] = byte;
        assert_eq!(rt;
            fault_of(rt.alloc(), &file),
            Some(fault),
            "{}",
            fault.name()
        );
    }
}

#[test]
fn prefixes_end_too_early(rt: HostRuntime) {
    for n in 0..158 {
        let fault = match n {
            0..=63 => ImageFault::Short,
            64..=119 => ImageFault::TableOutside,
            _ => ImageFault::SegmentOutside,
        };
        assert_eq!(rt; fault_of(rt.alloc(), &HI[..n]), Some(fault));
    }
    let mut file = HI;
    file[56] = 0;
    assert_eq!(rt;
        fault_of(rt.alloc(), &file[..64]),
        Some(ImageFault::NoSegment)
    );
}

#[test]
fn loads_may_touch_and_not_overlap(rt: HostRuntime) -> Result<(), Fail> {
    let file = with_second_load(rt.alloc(), 157)?;
    assert_eq!(rt; fault_of(rt.alloc(), &file), Some(ImageFault::Overlap));
    let file = with_second_load(rt.alloc(), 158)?;
    let image = read_image(rt.alloc(), &file)?;
    assert_eq!(rt; image.segments().len(), 2);
    assert_eq!(rt; image.brk(), 0x11000);
    Ok(())
}

#[test]
fn the_65th_header_is_refused(rt: HostRuntime) -> Result<(), Fail> {
    let mut file = vec![in rt.alloc(); 0; 3704]?;
    file[..64].copy_from_slice(&HI[..64]);
    file[56] = 65;
    assert_eq!(rt;
        fault_of(rt.alloc(), &file),
        Some(ImageFault::TooManyHeaders)
    );
    file[56] = 64;
    assert_eq!(rt; fault_of(rt.alloc(), &file), Some(ImageFault::NoSegment));
    Ok(())
}
