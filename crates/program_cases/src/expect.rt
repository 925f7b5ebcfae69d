// Words of programs, and checks of what a program gives.
use crate::answer;
use listing::Refusal;
use std::process::Abort;

pub(crate) const NOP: u32 = 0x0_0000;

pub(crate) const DONE: u32 = 0xa_0000;

// Words to which a target below 128 or a count is added.
pub(crate) const BLTZ: u32 = 0xd_0000;

pub(crate) const SETX: u32 = 0xe_0000;

pub(crate) const LOOP: u32 = 0xf_0000;

// Passes where the program is accepted with this slot limit.
pub(crate) fn takes(rt: &impl Abort, words: &[u32], limit: u32) {
    assert_eq!(rt; answer(words), Ok(limit));
}

// The refusal for a rule, by its number, that is broken at an address.
macro_rules! broken {
    ($number:expr, $place:expr) => {
        listing::Refusal {
            number: $number,
            layer: listing::Layer::Program,
            place: $place,
        }
    };
}

pub(crate) use broken;

// Passes where the program gets this refusal.
pub(crate) fn breaks(rt: &impl Abort, words: &[u32], refusal: Refusal) {
    assert_eq!(rt; answer(words), Err(refusal));
}
