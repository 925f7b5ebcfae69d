// Examples of programs: the slot limit of those that keep the rules, and why others are refused.
#![tactic(auto)]

ghost use Rattle.program_cases.specs.Answers.{Answered};

use listing::Refusal;
use program::check;

#[cfg(test)]
mod accepted;
#[cfg(test)]
mod expect;
#[cfg(test)]
mod limits;
#[cfg(test)]
mod refusals;

// The answer to a program: its slot limit, or why it is refused.
pub(crate) fn answer(words: &[u32]) -> Result<u32, Refusal>
    ensures { Answered words.now result }
{
    Ok(check(words)?)
}
