// Operands: registers, numbers and labels, each from one token.
ghost use Rattle.std.specs.Prelude.{◌≡◌, ℕ, ◌≤◌, ◌∷◌, decimal, MatchOption, ◌≢◌};
ghost use Rattle.grammar.specs.Grammar.{ReadsOn, NotNumber, NumberUpTo, OperandOf, MoreOf, OperandsOf};

use crate::token::{Rest, Token};

// The largest number.
const NUMBER_MAX: u32 = 65535;

// The last register.
const REGISTER_MAX: u32 = 31;

#[derive(Clone, Copy, PartialEq, Eq, Debug)]
pub enum Operand<'a> {
    Register(u32),
    Number(u32),
    Label(&'a [u8]),
}

// The operands of one instruction: three at the most, so a list longer than any instruction's cannot be said.
#[derive(Clone, Copy, PartialEq, Eq, Debug)]
pub enum Operands<'a> {
    Zero,
    One(Operand<'a>),
    Two(Operand<'a>, Operand<'a>),
    Three(Operand<'a>, Operand<'a>, Operand<'a>),
}

// What the digits write behind those of `front`, or none where it passes 65535.
fn number_on(front: u32, digits: &[u8]) -> Option<u32>
    requires { front ≤ 65535 }
    ensures { ReadsOn front digits.now result }
{
    match digits {
        [] => Some(front),
        [first @ b'0'..=b'9', rest @ ..] => {
            let value = front * 10 + u32::from(*first - b'0');
            if value > NUMBER_MAX {
                return None;
            }
            number_on(value, rest)
        }
        _ => None,
    }
}

// The decimal number of at most 65535 with just these digits, none of them a needless zero.
#[tactic(auto, using(crate::proofs::Numbers::numerals))]
fn number_of(digits: &[u8]) -> Option<u32>
    ensures { MatchOption result (NotNumber 65535 digits.now) (λ v. NumberUpTo 65535 digits.now v) }
{
    match digits {
        [] => None,
        [b'0', _, ..] => None,
        _ => number_on(0, digits),
    }
}

// The register with this name: a dollar sign and a number of at most 31.
#[tactic(auto, using(crate::proofs::Numbers::register_or_none))]
fn register_of(text: &[u8]) -> Option<u32>
    ensures { MatchOption result ((v : ℕ) → v ≤ 31 → text.now ≢ 36 ∷ decimal v) (λ v. (v ≤ 31) × (text.now ≡ 36 ∷ decimal v)) }
{
    match text {
        [b'$', digits @ ..] => {
            let n = number_of(digits)?;
            (n <= REGISTER_MAX).then_some(n)
        }
        _ => None,
    }
}

// The operand that a token is. A function, since `TryFrom` would need an error that says no more than `None`.
fn operand_of(token: Token<'_>) -> Option<Operand<'_>>
    ensures { OperandOf token.entry result }
{
    match token {
        Token::Register { text, .. } => Some(Operand::Register(register_of(text)?)),
        Token::Number { text, .. } => Some(Operand::Number(number_of(text)?)),
        Token::Name { text, .. } => Some(Operand::Label(text)),
        Token::Comma { .. } | Token::Colon { .. } | Token::End { .. } => None,
    }
}

// The operand behind a comma and what follows it, or nothing at the end of the line.
fn more_of(rest: Rest<'_>) -> Option<Option<(Operand<'_>, Rest<'_>)>>
    ensures { MoreOf rest.entry.bytes.now result }
{
    match rest.next_token()? {
        (Token::Comma { .. }, rest) => {
            let (second, rest) = rest.next_token()?;
            Some(Some((operand_of(second)?, rest)))
        }
        (Token::End { .. }, _) => Some(None),
        _ => None,
    }
}

// The operands that are left of a line, parted by commas; at most three.
pub(crate) fn operands_of(rest: Rest<'_>) -> Option<Operands<'_>>
    ensures { OperandsOf rest.entry.bytes.now result }
{
    let (first, rest) = rest.next_token()?;
    if matches!(first, Token::End { .. }) {
        return Some(Operands::Zero);
    }
    let a = operand_of(first)?;
    let Some((b, rest)) = more_of(rest)? else {
        return Some(Operands::One(a));
    };
    let Some((c, rest)) = more_of(rest)? else {
        return Some(Operands::Two(a, b));
    };
    match more_of(rest)? {
        None => Some(Operands::Three(a, b, c)),
        Some(_) => None,
    }
}
