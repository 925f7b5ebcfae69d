// Lone runs and lockstep. The definitions are in specs/ and the proofs in proofs/; the one function here has the theorem for its contract.
#![tactic(auto)]

ghost use Rattle.lanes.specs.Agreement.{LanesAgree};

// Lockstep agrees with each lane's run alone.
pub fn lanes_agree()
    ensures { LanesAgree }
{}
