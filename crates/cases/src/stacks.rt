//! Start stacks, the pages that a process begins with, and where mappings go.

use crate::hi_file::HI;
use area_list::Areas;
use elf_image::read_image;
use lego_base::{Area, Bytes, NoMemory, Perms, Vpn};
use space_rules::{StackFault, image_areas, place, stack_image};
use std::alloc::Global;
use std::test::Fail;

/// The stack of the arguments `a` and `bc` and the environment `d=1`, for an entry at 0x10078.
const STACK: [u8; 112] = [
    0x02, 0x00, 0x00, 0x00, 0x00, 0x00, 0x00, 0x00, // two arguments
    0xf7, 0xff, 0xfe, 0xff, 0x3f, 0x00, 0x00, 0x00, // `a` at 0x3ffffefff7
    0xf9, 0xff, 0xfe, 0xff, 0x3f, 0x00, 0x00, 0x00, // `bc` at 0x3ffffefff9
    0x00, 0x00, 0x00, 0x00, 0x00, 0x00, 0x00, 0x00, //
    0xfc, 0xff, 0xfe, 0xff, 0x3f, 0x00, 0x00, 0x00, // `d=1` at 0x3ffffefffc
    0x00, 0x00, 0x00, 0x00, 0x00, 0x00, 0x00, 0x00, //
    0x06, 0x00, 0x00, 0x00, 0x00, 0x00, 0x00, 0x00, // a page
    0x00, 0x10, 0x00, 0x00, 0x00, 0x00, 0x00, 0x00, // has 4096 bytes
    0x09, 0x00, 0x00, 0x00, 0x00, 0x00, 0x00, 0x00, // the entry
    0x78, 0x00, 0x01, 0x00, 0x00, 0x00, 0x00, 0x00, // is at 0x10078
    0x00, 0x00, 0x00, 0x00, 0x00, 0x00, 0x00, 0x00, // no more
    0x00, 0x00, 0x00, 0x00, 0x00, 0x00, 0x00, 0x00, //
    0x00, 0x00, 0x00, 0x00, 0x00, 0x00, 0x00, // up to the strings
    0x61, 0x00, 0x62, 0x63, 0x00, 0x64, 0x3d, 0x31, 0x00,
];

/// A number of arguments, the bytes of each, the bytes of the environment's only string, and whether they are too big.
const SIZES: [(u64, usize, usize, bool); 5] = [
    (511, 0, 0, false),
    (512, 0, 0, true),
    (63, 1023, 1023, false), // 65536 bytes with the closing zeros
    (63, 1023, 1024, true),
    (1, 65536, 0, true),
];

// The strings of one row of the table.
fn strings_of(alloc: Global, count: u64, len: usize) -> Result<Vec<Bytes>, NoMemory> {
    let text = vec![in alloc; b'x'; len]?;
    let mut strings = Vec::new(alloc);
    for _string in 0..count {
        strings.push(Bytes::from_slice(alloc, text.as_slice())?)?;
    }
    Ok(strings)
}

#[test]
fn a_stack_is_that_of_the_abi(rt: HostRuntime) -> Result<(), Fail> {
    let alloc = rt.alloc();
    let mut args = Vec::new(alloc);
    args.push(Bytes::from_slice(alloc, b"a".as_slice())?)?;
    args.push(Bytes::from_slice(alloc, b"bc".as_slice())?)?;
    let mut env = Vec::new(alloc);
    env.push(Bytes::from_slice(alloc, b"d=1".as_slice())?)?;
    match stack_image(alloc, args.as_slice(), env.as_slice(), 0x10078) {
        Ok(stack) => {
            assert_eq!(rt; stack.sp, 0x3F_FFFE_FF90);
            assert_eq!(rt; stack.bytes.as_slice(), STACK.as_slice());
        }
        Err(_) => assert!(rt; false),
    }
    Ok(())
}

#[test]
fn strings_are_too_big_past_the_limits(rt: HostRuntime) -> Result<(), Fail> {
    let alloc = rt.alloc();
    for (count, len, last, too_big) in SIZES {
        let args = strings_of(alloc, count, len)?;
        let env = strings_of(alloc, 1, last)?;
        let fault = stack_image(alloc, args.as_slice(), env.as_slice(), 4096).err();
        let is_too_big = fault == Some(StackFault::TooBig);
        assert_eq!(rt; is_too_big, too_big, "{count} of {len}, {last}");
    }
    Ok(())
}

#[test]
fn a_mapping_goes_to_the_lowest_place(rt: HostRuntime) -> Result<(), Fail> {
    let mut areas = Areas::new(rt.alloc())?;
    assert_eq!(rt; place(&areas, 1 << 37), Some(0x20_0000_0000));
    areas.put(Vpn(0x200_0000), 4, Perms::READ)?;
    areas.put(Vpn(0x200_0006), 1, Perms::READ)?;
    let places = [
        (1, Some(0x20_0000_4000)),
        (8192, Some(0x20_0000_4000)),
        (8193, Some(0x20_0000_7000)),
        ((1 << 37) - 0x7000, Some(0x20_0000_7000)),
        ((1 << 37) - 0x6FFF, None),
        (u64::MAX, None),
    ];
    for (len, at) in places {
        assert_eq!(rt; place(&areas, len), at, "{len}");
    }
    Ok(())
}

#[test]
fn a_process_begins_with_its_load_and_a_stack(rt: HostRuntime) -> Result<(), Fail> {
    match read_image(rt.alloc(), &HI) {
        Ok(image) => {
            let areas = image_areas(rt.alloc(), &image)?;
            let runs = [
                Area {
                    first: Vpn(16),
                    pages: 1,
                    perms: Perms::READ | Perms::EXEC,
                },
                Area {
                    first: Vpn(0x3FF_FEF0),
                    pages: 256,
                    perms: Perms::READ | Perms::WRITE,
                },
            ];
            assert_eq!(rt; areas.runs(), runs.as_slice());
        }
        Err(_) => assert!(rt; false),
    }
    Ok(())
}
