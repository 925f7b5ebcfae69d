// One line of shader text: a label or none, an instruction or none.
ghost use Rattle.grammar.specs.Lines.{CodeFrom, LabelOf, Reading, OneReading};

use crate::instruction::{Instruction, code_at};
use crate::token::{Rest, Token};

#[derive(Clone, Copy, PartialEq, Eq, Debug)]
pub struct Line<'a> {
    pub label: Option<&'a [u8]>,
    pub code: Option<Instruction<'a>>,
}

// The label that begins a line and what follows its colon, if there is one.
fn label_of(whole: Rest<'_>) -> Option<(&[u8], Rest<'_>)>
    ensures { LabelOf whole.entry.bytes.now result }
{
    let (Token::Name { text, .. }, rest) = whole.next_token()? else {
        return None;
    };
    let (Token::Colon { .. }, rest) = rest.next_token()? else {
        return None;
    };
    Some((text, rest))
}

// The instruction that the bytes write, nothing where they are blank.
fn code_from(rest: Rest<'_>) -> Option<Option<Instruction<'_>>>
    ensures { CodeFrom rest.entry.bytes.now result }
{
    match rest.next_token()? {
        (Token::End { .. }, _) => Some(None),
        (Token::Name { text, .. }, rest) => Some(Some(code_at(text, rest)?)),
        _ => None,
    }
}

// What a line says, or none where it is outside the grammar.
#[tactic(auto, using(crate::proofs::Readings::says_one))]
pub fn read_line(bytes: &[u8], line: u32) -> Option<Line<'_>>
    ensures reading { Reading bytes.now result }
    ensures alone { OneReading bytes.now }
{
    let whole = Rest { bytes, line };
    match label_of(whole) {
        Some((name, rest)) => Some(Line {
            label: Some(name),
            code: code_from(rest)?,
        }),
        None => Some(Line {
            label: None,
            code: code_from(whole)?,
        }),
    }
}
