// Programs that keep the rules, with their slot limits.
use crate::expect::{BLTZ, DONE, LOOP, NOP, SETX, takes};

const LOOPS: [(&[u32], u32); 9] = [
    // a body of two words, left early by a branch
    (&[SETX + 3, BLTZ + 3, LOOP + 1, DONE], 10),
    // a loop to itself
    (&[SETX + 5, LOOP + 1, DONE], 8),
    // a count of 0, and the greatest
    (&[SETX, LOOP + 1, DONE], 3),
    (&[SETX + 65535, LOOP + 1, DONE], 65538),
    // a word between the setx and the target
    (&[SETX + 2, NOP, LOOP + 2, DONE], 6),
    // setxs that feed nothing
    (&[SETX + 9, DONE], 2),
    (&[SETX + 9, SETX + 2, LOOP + 2, SETX + 7, DONE], 7),
    // two loops, side by side and apart
    (&[SETX + 1, LOOP + 1, SETX + 2, LOOP + 3, DONE], 8),
    (
        &[NOP, SETX + 1, LOOP + 2, NOP, SETX + 2, NOP, LOOP + 5, DONE],
        13,
    ),
];

const BRANCHES: [(&[u32], u32); 7] = [
    // to the next word, and to the last
    (&[BLTZ + 1, DONE], 2),
    (&[BLTZ + 3, NOP, NOP, DONE], 4),
    // to a setx
    (&[BLTZ + 1, SETX + 3, NOP, LOOP + 2, DONE], 11),
    // from below to the target of a loop
    (&[SETX + 3, BLTZ + 2, NOP, LOOP + 2, DONE], 11),
    // out of a body, and to another loop's setx
    (&[SETX + 1, BLTZ + 4, NOP, LOOP + 1, DONE], 8),
    (&[SETX + 1, BLTZ + 3, LOOP + 1, SETX + 1, LOOP + 4, DONE], 9),
    // from the setx's next word to the last, over the loop
    (&[SETX + 1, BLTZ + 3, LOOP + 2, DONE], 5),
];

// Words of each code, and with bits that have no use.
const WORDS: [u32; 14] = [
    0x0_0000, 0x0_ffff, 0x1_2088, 0x2_3190, 0x3_4298, 0x4_5380, 0x5_6400, 0x6_7480, 0x6_ffff,
    0x8_852c, 0x8_0003, 0xd_0881, 0xe_ffff, 0xe_0000,
];

#[test]
fn loops(rt: HostRuntime) {
    for (words, limit) in LOOPS {
        takes(&rt, words, limit);
    }
}

#[test]
fn branches(rt: HostRuntime) {
    for (words, limit) in BRANCHES {
        takes(&rt, words, limit);
    }
}

#[test]
fn codes(rt: HostRuntime) {
    for word in WORDS {
        takes(&rt, &[word, DONE], 2);
    }
    takes(&rt, &[0xa_ffff], 1);
    takes(&rt, &[SETX + 1, LOOP + 0x801, DONE], 4);
}
