// Examples of the shader assembler: what a text must give, with the values that tests compare.
#![tactic(auto)]

ghost use Rattle.std.specs.Prelude.{◌≡◌, IfOk, string_bytes};
ghost use Rattle.text_cases.specs.Answers.{Answered};
ghost use Rattle.text_cases.specs.Lines.{label_line, label_lines};

use listing::Refusal;
use std::alloc::{AllocError, Global};
use text::{Counts, Label, assemble};

#[cfg(test)]
mod expect;
#[cfg(test)]
mod limits;
#[cfg(test)]
mod refusals;
#[cfg(test)]
mod words;
#[cfg(test)]
mod wrong;

// The answer to a text: how many words and labels it has, or why it is refused. It hands on the three slices as they are.
pub(crate) fn answer(
    text: &[u8],
    words: &mut [u32],
    labels: &mut [Label],
) -> Result<Counts, Refusal>
    ensures { Answered text.now words.old labels.old result words.new labels.new }
{
    Ok(assemble(text, words, labels)?)
}

// The line of a label: the letter l, a number and a colon.
fn label_line(heap: Global, number: usize) -> Result<String, AllocError>
    ensures { IfOk result (λ s. string_bytes s ≡ label_line number) }
{
    format!(in heap; "l{number}:\n")
}

// The lines of the labels from 0 on, as many as asked.
pub(crate) fn numbered(heap: Global, count: usize) -> Result<String, AllocError>
    ensures { IfOk result (λ s. string_bytes s ≡ label_lines count) }
{
    let mut text = String::new(heap);
    for i in 0..count {
        let line = label_line(heap, i)?;
        text.push_str(line.as_str())?;
    }
    Ok(text)
}
