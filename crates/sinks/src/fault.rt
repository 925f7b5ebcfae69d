// Why a sink refuses, with its number.
#[derive(Clone, Copy, PartialEq, Eq, Debug)]
pub enum Fault {
    // no block has this place
    Place,
    // no lane has this number
    Lane,
}

impl From<Fault> for u32 {
    ghost use Rattle.std.specs.Prelude.{◌≡◌};
    ghost use Rattle.sinks.specs.Faults.{number_of};

    ghost from_gives = { λ fault number. number ≡ number_of fault };

    // The number of the refusal.
    fn from(fault: Fault) -> u32 {
        match fault {
            Fault::Place => 13,
            Fault::Lane => 14,
        }
    }
}
