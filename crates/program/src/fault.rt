// Why a program is refused, with its number and its address.
ghost use Rattle.std.specs.Prelude.{◌≡◌};
ghost use Rattle.program.specs.Faults.{refusal_of};

use listing::{Layer, Refusal};

// A refusal of a program, with the lowest address that breaks the rule.
#[derive(Clone, Copy, PartialEq, Eq, Debug)]
pub enum Fault {
    // no word, or more than 2,048
    Length,
    // a word that is too wide, or whose code is not in use
    Word(u32),
    // a last word that is not done, or a done before it
    Ending(u32),
    // a branch that does not go forward, or goes past the end
    Target(u32),
    // a branch over a setx
    SetxSkipped(u32),
    // a loop that goes forward, or that no setx of its own feeds
    Feeding(u32),
    // a branch into a loop's body
    IntoLoop(u32),
}

// A fault as its number, its layer and its place.
impl From<Fault> for Refusal {
    ghost from_gives = { λ fault refusal. refusal ≡ refusal_of fault };

    fn from(fault: Fault) -> Refusal {
        let (number, place) = match fault {
            Fault::Length => (1, 0),
            Fault::Word(address) => (2, address),
            Fault::Ending(address) => (3, address),
            Fault::Target(address) => (4, address),
            Fault::SetxSkipped(address) => (5, address),
            Fault::Feeding(address) => (6, address),
            Fault::IntoLoop(address) => (7, address),
        };
        Refusal {
            number,
            layer: Layer::Program,
            place,
        }
    }
}
