// The rules of a program, tested in order, each over the whole program.
ghost use Rattle.std.specs.Prelude.{◌≤◌, ◌↔◌, Bool, IsTrue, MatchResult, length};
ghost use Rattle.std.specs.Result.{result_err};
ghost use Rattle.program.specs.declared.place.Place.{Place};
ghost use Rattle.program.specs.Outcome.{Found, Broken, Checked, OneOutcome};
ghost use Rattle.program.specs.Rules.{Accepted};
ghost use Rattle.program.specs.Scans.{Rule, Breaks};

use crate::fault::Fault;
use crate::limit::slot_limit;
use crate::place::Place;

// Err with the lowest address that breaks a rule, by a test of one address.
#[tactic(auto, using(crate::proofs::Scans::breaks_within))]
fn keeps<F: Fn(Place) -> bool>(words: &[u32], breaks: F) -> Result<(), u32>
    ghost rule: { Rule }
    requires short { length words.now ≤ 2048 }
    requires callable { F.IsAlwaysCallable breaks }
    requires exact { (p : Place) (b : Bool) → F.post breaks p b
        → IsTrue b ↔ Breaks rule p.words.now p.address }
    ensures { Found (Breaks rule words.now) (result_err result) }
{
    // A loop, since an address that is found is answered as an error.
    for address in 0..words.len() {
        if breaks(Place { words, address }) {
            return Err(address as u32);
        }
    }
    Ok(())
}

// Err with the first rule that a program breaks, at the lowest address.
fn keeps_rules(words: &[u32]) -> Result<(), Fault>
    ensures { MatchResult result (λ _. Accepted words.now) (Broken words.now) }
{
    if words.is_empty() || words.len() > 2048 {
        return Err(Fault::Length);
    }
    keeps(words, |place| place.is_wrong_word()).map_err(Fault::Word)?;
    keeps(words, |place| place.is_wrong_ending()).map_err(Fault::Ending)?;
    keeps(words, |place| place.is_wrong_target()).map_err(Fault::Target)?;
    keeps(words, |place| place.skips_setx()).map_err(Fault::SetxSkipped)?;
    keeps(words, |place| place.is_wrong_loop()).map_err(Fault::Feeding)?;
    keeps(words, |place| place.enters_loop()).map_err(Fault::IntoLoop)?;
    Ok(())
}

// The slot limit of a program that keeps the rules, or the first rule that it breaks, at the lowest address.
#[tactic(auto, using(crate::proofs::Outcomes::outcome_one))]
pub fn check(words: &[u32]) -> Result<u32, Fault>
    ensures outcome { Checked words.now result }
    ensures alone { OneOutcome words.now }
{
    keeps_rules(words)?;
    Ok(slot_limit(words))
}
