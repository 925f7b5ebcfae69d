// What a check of an example found: `?` makes a test's failure of it.
ghost use Rattle.std.specs.Prelude.{◌≡◌, ◌↔◌, IsTrue, IsOk, OnOk};
ghost use Rattle.text_cases.specs.declared.wrong.Value.TheVariants.{Word, Label};
ghost use Rattle.text_cases.specs.declared.wrong.Wrong.TheVariants.{Refused, Memory};

use listing::Refusal;
use std::alloc::AllocError;
use std::fmt::Display;
use std::test::Fail;
use text::Label;

// What a place holds.
#[derive(Debug, Drop)]
pub(crate) enum Value {
    Word(u32),
    Label(Label),
}

impl From<u32> for Value {
    ghost from_gives = { λ word value. value ≡ Word word };

    fn from(word: u32) -> Value {
        Value::Word(word)
    }
}

impl From<Label> for Value {
    ghost from_gives = { λ label value. value ≡ Label label };

    fn from(label: Label) -> Value {
        Value::Label(label)
    }
}

#[derive(Debug, Drop)]
pub(crate) enum Wrong {
    Not(&'static str),
    Place {
        place: usize,
        is: Value,
        expected: Value,
    },
    Refused(Refusal),
    Memory(AllocError),
}

impl From<Refusal> for Wrong {
    ghost from_gives = { λ refusal wrong. wrong ≡ Refused refusal };

    fn from(refusal: Refusal) -> Wrong {
        Wrong::Refused(refusal)
    }
}

impl From<AllocError> for Wrong {
    ghost from_gives = { λ error wrong. wrong ≡ Memory error };

    fn from(error: AllocError) -> Wrong {
        Wrong::Memory(error)
    }
}

// Passes just where the condition holds.
pub(crate) fn check(condition: bool, said: &'static str) -> Result<(), Wrong>
    ensures only { OnOk result (IsTrue condition) }
    ensures always { IsTrue condition → IsOk result }
{
    if condition {
        Ok(())
    } else {
        Err(Wrong::Not(said))
    }
}

// The same answer, with a note on the list and the case that it is of.
pub(crate) fn noted<D: Display + Drop>(
    checked: Result<(), Wrong>,
    list: &'static str,
    case: D,
) -> Result<(), Fail>
    ensures { IsOk result ↔ IsOk checked }
{
    match checked {
        Ok(()) => Ok(()),
        Err(wrong) => Err(Fail::new(format_args!("{list} {case}: {wrong:?}"))),
    }
}
