// Channels at the edges of their levels, and colours.
use noise::{Noise, channel, colour};

// Levels, and their channels at noise 0 to 7.
const EDGES: [(i8, [u16; 8]); 12] = [
    (-128, [0; 8]),
    (-1, [0; 8]),
    (0, [0; 8]),
    (1, [1, 0, 0, 0, 0, 0, 0, 0]),
    (7, [1, 1, 1, 1, 1, 1, 1, 0]),
    (8, [1; 8]),
    (60, [8, 8, 8, 8, 7, 7, 7, 7]),
    (112, [14; 8]),
    (119, [15, 15, 15, 15, 15, 15, 15, 14]),
    (120, [15; 8]),
    (121, [15; 8]),
    (127, [15; 8]),
];

// What the noise has above its three bits changes nothing.
#[test]
fn edges(rt: HostRuntime) {
    for (level, channels) in EDGES.iter() {
        for (noise, expected) in (0u16..8).zip(channels.iter()) {
            assert_eq!(rt; channel(*level, noise), *expected);
            assert_eq!(rt; channel(*level, noise | 0xfff8), *expected);
        }
    }
}

// New noise is 1 at red of lane 0, and 0 at all else; past the last lane it is 0.
#[test]
fn by_new_noise(rt: HostRuntime) {
    let noise = Noise::new();
    assert_eq!(rt; colour([1, 1, 1], &noise, 0), 0x011);
    assert_eq!(rt; colour([1, 1, 1], &noise, 1), 0x111);
    assert_eq!(rt; colour([1, 1, 1], &noise, 16), 0x111);
    assert_eq!(rt; colour([-1, 60, 127], &noise, 15), 0x08f);
}

// Noise of all bits rounds nothing up.
#[test]
fn by_full_noise(rt: HostRuntime) {
    let noise = Noise::seeded(&[0xff; 18]);
    assert_eq!(rt; colour([119, 60, 7], &noise, 15), 0xe70);
    assert_eq!(rt; colour([8, 16, 24], &noise, 0), 0x123);
}
