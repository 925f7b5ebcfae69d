// Why a text is refused, with its number, its layer and its line.
ghost use Rattle.std.specs.Prelude.{◌≡◌};
ghost use Rattle.text.specs.Faults.{refusal_of};

use listing::{Layer, Refusal};

// A refusal of a text; the lines are counted from 1.
#[derive(Clone, Copy, PartialEq, Eq, Debug)]
pub enum Fault {
    // more than 65,535 bytes
    TooLong,
    // a line outside the grammar
    Grammar(u32),
    // a label that an earlier line defines
    Twice(u32),
    // no place for the line's word or label
    NoRoom(u32),
    // a label that no line defines, or at an address above 2,047
    Unknown(u32),
}

// The fault as its number, its layer and its place.
impl From<Fault> for Refusal {
    ghost from_gives = { λ fault refusal. refusal ≡ refusal_of fault };

    fn from(fault: Fault) -> Refusal {
        let (number, place) = match fault {
            Fault::TooLong => (20, 0),
            Fault::Grammar(line) => (21, line),
            Fault::Twice(line) => (22, line),
            Fault::NoRoom(line) => (23, line),
            Fault::Unknown(line) => (24, line),
        };
        Refusal {
            number,
            layer: Layer::Text,
            place,
        }
    }
}
