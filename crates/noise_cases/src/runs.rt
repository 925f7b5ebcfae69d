// Runs of 300 steps, beside the plain array and against worked lanes.
use crate::plain::{seeded, stepped, three};
use noise::Noise;
use std::process::Abort;

const SEED: [u8; 18] = [
    0x01, 0x23, 0x45, 0x67, 0x89, 0xab, 0xcd, 0xef, 0xfe, 0xdc, 0xba, 0x98, 0x76, 0x54, 0x32, 0x10,
    0x55, 0xaa,
];

// The nine bits of each lane, worked apart from this code.
const SEEDED: [u16; 16] = [
    257, 145, 465, 300, 184, 109, 447, 509, 220, 93, 422, 142, 293, 129, 340, 340,
];

const SEEDED_AFTER: [u16; 16] = [
    186, 284, 454, 488, 286, 468, 432, 139, 203, 176, 465, 61, 425, 353, 279, 278,
];

const NEW_AFTER: [u16; 16] = [0, 136, 260, 0, 0, 0, 0, 0, 0, 0, 0, 0, 0, 0, 0, 0];

// Each channel of each lane is the same.
fn check_alike(rt: &impl Abort, noise: &Noise, bits: &[bool; 144]) {
    for lane in 0..16 {
        for channel in 0..3 {
            assert_eq!(rt; noise.bits(lane, channel), three(bits, lane, channel));
        }
    }
}

// The lanes are these, and there are no more.
fn check_lanes(rt: &impl Abort, noise: &Noise, lanes: &[u16; 16]) {
    for (lane, expected) in lanes.iter().enumerate() {
        assert_eq!(rt; noise.bits(lane, 0), *expected % 8);
        assert_eq!(rt; noise.bits(lane, 1), *expected / 8 % 8);
        assert_eq!(rt; noise.bits(lane, 2), *expected / 64);
        assert_eq!(rt; noise.bits(lane, 3), 0);
    }
    assert_eq!(rt; noise.bits(16, 0), 0);
    assert_eq!(rt; noise.bits(usize::MAX, usize::MAX), 0);
}

// Steps both 300 times, and compares them each time.
fn run(rt: &impl Abort, noise: &mut Noise, start: &[bool; 144]) {
    let mut bits = *start;
    check_alike(rt, noise, &bits);
    for _ in 0..300 {
        noise.step();
        bits = stepped(&bits);
        check_alike(rt, noise, &bits);
    }
}

#[test]
fn new_noise(rt: HostRuntime) {
    let mut noise = Noise::new();
    let mut bits = [false; 144];
    bits[0] = true;
    run(&rt, &mut noise, &bits);
    check_lanes(&rt, &noise, &NEW_AFTER);
}

#[test]
fn seeded_noise(rt: HostRuntime) {
    let mut noise = Noise::seeded(&SEED);
    check_lanes(&rt, &noise, &SEEDED);
    run(&rt, &mut noise, &seeded(&SEED));
    check_lanes(&rt, &noise, &SEEDED_AFTER);
}

// Every bit set, and none: the taps cancel in both.
#[test]
fn plain_seeds(rt: HostRuntime) {
    let mut full = Noise::seeded(&[0xff; 18]);
    check_lanes(&rt, &full, &[511; 16]);
    run(&rt, &mut full, &[true; 144]);
    let mut none = Noise::seeded(&[0; 18]);
    run(&rt, &mut none, &[false; 144]);
    check_lanes(&rt, &none, &[0; 16]);
}
