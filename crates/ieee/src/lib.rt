// IEEE 754 over every binary format. The definitions are in specs/ and the proofs in proofs/; the one function here has the theorems
// for its contract.
#![tactic(auto)]

ghost use Rattle.ieee.specs.Laws.{FormatsStand, RoundingStands, AllOperationsStand, FloorStands, LevelStands};

// What holds of every format: which values it has, that a rounded word is right for the exact result and no other word is, that
// each operation answers such a word, and what floor and level are.
pub fn laws()
    ensures formats { FormatsStand }
    ensures rounding { RoundingStands }
    ensures operations { AllOperationsStand }
    ensures floor { FloorStands }
    ensures level { LevelStands }
{}
