// Where the colours of a block lie, at lengths that are no whole number of blocks.
use crate::{put_and_read, put_packed, put_plain};
use sinks::{Packed, Plain, Sink};
use std::test::Fail;

// Sixteen values with bits above the low twelve.
pub(crate) const VALUES: [u16; 16] = [
    0xf123, 0xe456, 0xd789, 0xcabc, 0xbdef, 0xa012, 0x9345, 0x8678, 0x7000, 0x6fff, 0x50f0, 0x4f0f,
    0x3001, 0x2800, 0x1010, 0x0ffe,
];

// Their bytes, three for two.
const BYTES: [u8; 24] = [
    0x23, 0x61, 0x45, 0x89, 0xc7, 0xab, 0xef, 0x2d, 0x01, 0x45, 0x83, 0x67, 0x00, 0xf0, 0xff, 0xf0,
    0xf0, 0xf0, 0x01, 0x00, 0x80, 0x10, 0xe0, 0xff,
];

// The numbers of a ragged plain memory: one block is replaced, all else stays.
#[test]
fn plain_numbers(rt: HostRuntime) -> Result<(), Fail> {
    let mut memory = [0xffffu16; 47];
    assert!(rt; Plain::over(&mut memory).count() == 2);
    put_plain(&mut memory, 1, &VALUES)?;
    let mut expected = [0xffff; 47];
    expected[16..32].copy_from_slice(&VALUES.map(|value| value % 4096));
    assert_eq!(rt; memory, expected);
    Ok(())
}

// The bytes of a ragged packed memory: one block is replaced, all else stays.
#[test]
fn packed_bytes(rt: HostRuntime) -> Result<(), Fail> {
    let mut memory = [0xeeu8; 71];
    assert!(rt; Packed::over(&mut memory).count() == 2);
    put_packed(&mut memory, 1, &VALUES)?;
    let mut expected = [0xee; 71];
    expected[24..48].copy_from_slice(&BYTES);
    assert_eq!(rt; memory, expected);
    Ok(())
}

// Each lane is read back, and a number's upper bits are no part of a colour.
#[test]
fn lanes(rt: HostRuntime) -> Result<(), Fail> {
    let mut numbers = VALUES;
    let plain = Plain::over(&mut numbers);
    let mut bytes = BYTES;
    let packed = Packed::over(&mut bytes);
    for (lane, value) in VALUES.iter().enumerate() {
        assert_eq!(rt; plain.get(0, lane)?, *value % 4096);
        assert_eq!(rt; packed.get(0, lane)?, *value % 4096);
    }
    Ok(())
}

// A put and then a get.
#[test]
fn reads_back(rt: HostRuntime) -> Result<(), Fail> {
    let mut memory = [0xeeu8; 48];
    assert_eq!(rt; put_and_read(&mut memory, 1, &VALUES, 9)?, 0xfff);
    Ok(())
}
