// What a unit has to answer: tables' rows, and the checks of a unit against them.
ghost use Rattle.std.specs.Prelude.{◌↔◌, IsTrue, IsOk};

use std::fmt::Debug;
use std::test::Fail;
use units::Unit;

// Two words with their sum, difference, product and quotient.
pub(crate) struct Pair {
    pub(crate) a: u32,
    pub(crate) b: u32,
    pub(crate) sum: u32,
    pub(crate) difference: u32,
    pub(crate) product: u32,
    pub(crate) quotient: u32,
}

// A word with what the functions of one word answer.
pub(crate) struct Word {
    pub(crate) a: u32,
    pub(crate) floor: u32,
    pub(crate) abs: u32,
    pub(crate) sqrt: u32,
    pub(crate) negative: bool,
    pub(crate) level: i8,
}

// Passes just where an answer is the one that is expected, with the word that it is of.
fn same<T: PartialEq + Debug + Copy>(answer: T, expected: T, word: u32) -> Result<(), Fail>
    ensures { IsOk result ↔ IsTrue (T.eq answer expected) }
{
    if answer == expected {
        Ok(())
    } else {
        Err(Fail::new(format_args!("at {word:x}: {answer:?}, and not {expected:?}")))
    }
}

// Each pair's four answers.
pub(crate) fn check_pairs<U: Unit>(unit: &U, pairs: &[Pair]) -> Result<(), Fail> {
    for p in pairs {
        same(unit.add(p.a, p.b), p.sum, p.a)?;
        same(unit.sub(p.a, p.b), p.difference, p.a)?;
        same(unit.mul(p.a, p.b), p.product, p.a)?;
        same(unit.div(p.a, p.b), p.quotient, p.a)?;
    }
    Ok(())
}

// Each word's five answers.
pub(crate) fn check_words<U: Unit>(unit: &U, words: &[Word]) -> Result<(), Fail> {
    for w in words {
        same(unit.floor(w.a), w.floor, w.a)?;
        same(unit.abs(w.a), w.abs, w.a)?;
        same(unit.sqrt(w.a), w.sqrt, w.a)?;
        same(unit.negative(w.a), w.negative, w.a)?;
        same(unit.level(w.a), w.level, w.a)?;
    }
    Ok(())
}

// The word of v / 65536, for each v beside its word.
pub(crate) fn check_numbers<U: Unit>(unit: &U, numbers: &[(i32, u32)]) -> Result<(), Fail> {
    for (v, word) in numbers {
        same(unit.number(*v), *word, *word)?;
    }
    Ok(())
}
