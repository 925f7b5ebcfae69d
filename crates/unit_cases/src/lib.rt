// Worked words of the two units: a list of theorems, and tests.
#![tactic(auto)]

ghost use Rattle.unit_cases.specs.Worked.{HalfWords, SingleWords};

#[cfg(test)]
mod cases;
#[cfg(test)]
mod half_words;
#[cfg(test)]
mod single_words;

// Words that were worked by hand or are published, computed from the rules.
pub fn worked_words()
    ensures halves { HalfWords }
    ensures singles { SingleWords }
{}
