// Programs that break a rule, with its number and the address.
use crate::expect::{BLTZ, DONE, LOOP, NOP, SETX, breaks, broken};
use listing::Refusal;

// A word whose code is not in use.
const BAD: u32 = 0x7_0000;

// Rules 1 to 3.
const WORDS: [(&[u32], Refusal); 14] = [
    (&[], broken!(1, 0)),
    (&[BAD, NOP, DONE], broken!(2, 0)),
    (&[NOP, 0x9_ffff, DONE], broken!(2, 1)),
    (&[NOP, NOP, 0xb_0000], broken!(2, 2)),
    (&[0xc_0000], broken!(2, 0)),
    (&[0x10_0000, DONE], broken!(2, 0)),
    (&[0x1a_0000], broken!(2, 0)),
    (&[NOP, 0xffff_ffff, BAD, DONE], broken!(2, 1)),
    (&[NOP], broken!(3, 0)),
    (&[NOP, NOP, NOP], broken!(3, 2)),
    (&[DONE, DONE], broken!(3, 0)),
    (&[NOP, DONE, DONE], broken!(3, 1)),
    (&[NOP, DONE, NOP], broken!(3, 1)),
    (&[SETX, LOOP + 1], broken!(3, 1)),
];

// Rules 4 and 5.
const BRANCHES: [(&[u32], Refusal); 10] = [
    (&[BLTZ, DONE], broken!(4, 0)),
    (&[NOP, BLTZ + 1, NOP, DONE], broken!(4, 1)),
    (&[NOP, NOP, BLTZ + 1, DONE], broken!(4, 2)),
    (&[NOP, NOP, BLTZ + 4, DONE], broken!(4, 2)),
    (&[BLTZ + 2, DONE], broken!(4, 0)),
    (&[NOP, 0xd_1001, DONE], broken!(4, 1)),
    (&[BLTZ + 2, SETX + 1, DONE], broken!(5, 0)),
    (&[NOP, BLTZ + 4, NOP, SETX, DONE], broken!(5, 1)),
    (&[NOP, NOP, BLTZ + 4, SETX, DONE], broken!(5, 2)),
    (
        &[BLTZ + 1, BLTZ + 3, SETX, BLTZ + 5, SETX, DONE],
        broken!(5, 1),
    ),
];

// Rules 6 and 7.
const LOOPS: [(&[u32], Refusal); 13] = [
    // no setx before it
    (&[LOOP, DONE], broken!(6, 0)),
    (&[LOOP + 2, SETX, LOOP + 2, DONE], broken!(6, 0)),
    // the target at the setx, below it and behind the loop
    (&[SETX + 3, LOOP, DONE], broken!(6, 1)),
    (&[NOP, SETX + 1, LOOP, DONE], broken!(6, 2)),
    (&[SETX + 1, NOP, LOOP + 3, DONE], broken!(6, 2)),
    // a nearer setx in the body
    (&[SETX + 1, NOP, SETX + 2, LOOP + 1, DONE], broken!(6, 3)),
    // two loops of one setx
    (&[SETX + 1, LOOP + 1, LOOP + 2, DONE], broken!(6, 2)),
    (&[SETX + 1, NOP, LOOP + 2, LOOP + 1, DONE], broken!(6, 3)),
    // to the loop, into the middle, and from the body further on
    (&[SETX + 3, BLTZ + 2, LOOP + 1, DONE], broken!(7, 1)),
    (&[SETX, BLTZ + 3, NOP, LOOP + 2, NOP, DONE], broken!(7, 1)),
    (&[SETX, NOP, BLTZ + 4, NOP, LOOP + 1, DONE], broken!(7, 2)),
    (&[SETX, NOP, NOP, BLTZ + 4, LOOP + 1, DONE], broken!(7, 3)),
    (
        &[SETX, BLTZ + 2, NOP, BLTZ + 4, BLTZ + 5, LOOP + 2, DONE],
        broken!(7, 3),
    ),
];

// Two rules, each broken below and above the other.
const BOTH: [(&[u32], Refusal); 10] = [
    (&[DONE, BAD], broken!(2, 1)),
    (&[BAD, NOP], broken!(2, 0)),
    (&[BLTZ, DONE, DONE], broken!(3, 1)),
    (&[DONE, BLTZ + 1, DONE], broken!(3, 0)),
    (&[BLTZ + 2, SETX, BLTZ + 2, DONE], broken!(4, 2)),
    (&[BLTZ, BLTZ + 3, SETX, DONE], broken!(4, 0)),
    (&[LOOP, BLTZ + 3, SETX, DONE], broken!(5, 1)),
    (&[BLTZ + 2, SETX, LOOP, DONE], broken!(5, 0)),
    (&[SETX, BLTZ + 2, LOOP + 1, LOOP + 3, DONE], broken!(6, 3)),
    (&[LOOP, SETX, BLTZ + 3, LOOP + 2, DONE], broken!(6, 0)),
];

#[test]
fn words(rt: HostRuntime) {
    for (words, refusal) in WORDS {
        breaks(&rt, words, refusal);
    }
}

#[test]
fn branches(rt: HostRuntime) {
    for (words, refusal) in BRANCHES {
        breaks(&rt, words, refusal);
    }
}

#[test]
fn loops(rt: HostRuntime) {
    for (words, refusal) in LOOPS {
        breaks(&rt, words, refusal);
    }
}

#[test]
fn two_at_once(rt: HostRuntime) {
    for (words, refusal) in BOTH {
        breaks(&rt, words, refusal);
    }
}
