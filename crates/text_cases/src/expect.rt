// Checks of what a text gives, in small places that hold known values before.
ghost use Rattle.std.proofs.Common.{rules};
ghost use Rattle.std.specs.Prelude.{◌≡◌, ◌≤◌, ◌↔◌, length, IsOk, IsTrue, OnOk};
ghost use Rattle.text_cases.specs.Answers.{AnsweredIn, refused_at};
ghost use Rattle.text_cases.specs.Passes.{Gives, Enters, Refuses, Fits, Stops};
ghost use Rattle.text_cases.specs.Places.{old_word, old_label, IsAt, Begins};

use crate::answer;
use crate::wrong::{Value, Wrong, check};
use listing::Refusal;
use std::alloc::Global;
use text::{Counts, Label};

// A label, by its place, its length and its address.
macro_rules! label {
    ($place:expr, $length:expr, $address:expr) => {
        text::Label {
            place: $place,
            length: $length,
            address: $address,
        }
    };
}

pub(crate) use label;

// The refusal of a text, by its number, at a line.
macro_rules! at_line {
    ($number:expr, $line:expr) => {
        listing::Refusal {
            number: $number,
            layer: listing::Layer::Text,
            place: $line,
        }
    };
}

pub(crate) use at_line;

// So many words and labels.
macro_rules! counts {
    ($words:expr, $labels:expr) => {
        text::Counts {
            words: $words,
            labels: $labels,
        }
    };
}

pub(crate) use counts;

// A word or a label, which the places hold: it is equal just to itself, and known where a check fails.
pub(crate) trait Held: Copy + PartialEq + Into<Value> {
    // What the places hold before a text is assembled.
    const OLD: Self;

    ghost OLD: { Self };

    ghost same: { (a b : Self) → IsTrue (Self.eq a b) ↔ (a ≡ b) };
}

impl Held for u32 {
    const OLD: u32 = 0xf_ffff;

    ghost OLD = { old_word };

    ghost same = { Prim.search rules };
}

impl Held for Label {
    const OLD: Label = label!(70, 80, 90);

    ghost OLD = { old_label };

    ghost same = { Prim.search rules };
}

// What a place must hold: one of the values at the front, or what it held before.
fn value_at<T: Held>(front: &[T], i: usize) -> T
    ensures { IsAt T.OLD front.now i result }
{
    front.get(i).copied().unwrap_or(T::OLD)
}

// Passes just where the places begin with these values and are else as they were.
pub(crate) fn hold<T: Held>(places: &[T], front: &[T]) -> Result<(), Wrong>
    ensures only { OnOk result (Begins T.OLD places.now front.now) }
    ensures always { Begins T.OLD places.now front.now → IsOk result }
{
    check(front.len() <= places.len(), "room for the front")?;
    for (i, is) in places.iter().enumerate() {
        let expected = value_at(front, i);
        if *is != expected {
            return Err(Wrong::Place {
                place: i,
                is: (*is).into(),
                expected: expected.into(),
            });
        }
    }
    Ok(())
}

// Passes where the text gives just these words.
pub(crate) fn gives(text: &[u8], expected: &[u32]) -> Result<(), Wrong>
    ensures { OnOk result (Gives text.now expected.now) }
{
    let mut words = [u32::OLD; 20];
    let mut labels = [Label::OLD; 20];
    let counts = answer(text, &mut words, &mut labels)?;
    check(counts.words == expected.len(), "as many words")?;
    hold(&words, expected)
}

// Passes where the text gives just these labels: the other table and the other count, so little would be shared with `gives`.
pub(crate) fn enters(text: &[u8], expected: &[Label]) -> Result<(), Wrong>
    ensures { OnOk result (Enters text.now expected.now) }
{
    let mut words = [u32::OLD; 20];
    let mut labels = [Label::OLD; 20];
    let counts = answer(text, &mut words, &mut labels)?;
    check(counts.labels == expected.len(), "as many labels")?;
    hold(&labels, expected)
}

// A text that is refused: with so many places, the refusal, and the labels that are entered.
#[derive(Clone, Copy)]
pub(crate) struct Stop {
    pub(crate) text: &'static [u8],
    pub(crate) room: Counts,
    pub(crate) refusal: Refusal,
    pub(crate) entered: &'static [Label],
}

// The answer to a text with only the first places of the slices, which are handed on.
pub(crate) fn answer_in(
    text: &[u8],
    words: &mut [u32],
    labels: &mut [Label],
    room: Counts,
) -> Result<Counts, Refusal>
    requires { (room.words ≤ length words.old) × (room.labels ≤ length labels.old) }
    ensures { AnsweredIn room text.now words.old labels.old result words.new labels.new }
{
    answer(text, &mut words[..room.words], &mut labels[..room.labels])
}

// Passes just where the refusal is the one that is told.
pub(crate) fn is_told(refusal: Refusal, told: Refusal) -> Result<(), Wrong>
    ensures only { OnOk result (refusal ≡ told) }
    ensures always { refusal ≡ told → IsOk result }
{
    if refusal == told {
        Ok(())
    } else {
        Err(Wrong::Refused(refusal))
    }
}

// Passes where the text is refused as told, writes no word and leaves all else as it was.
pub(crate) fn stops(case: Stop) -> Result<(), Wrong>
    ensures { OnOk result (Stops case.text.now case.room case.refusal case.entered.now) }
{
    let mut words = [u32::OLD; 20];
    let mut labels = [Label::OLD; 20];
    check(
        case.room.words <= 20 && case.room.labels <= 20,
        "at most twenty places",
    )?;
    let Err(refusal) = answer_in(case.text, &mut words, &mut labels, case.room) else {
        return Err(Wrong::Not("refused"));
    };
    is_told(refusal, case.refusal)?;
    hold(&words, &[])?;
    hold(&labels, case.entered)
}

// Passes where the text takes up so many places for words and for labels, and needs no more.
pub(crate) fn fits(text: &[u8], room: Counts) -> Result<(), Wrong>
    ensures { OnOk result (Fits text.now room) }
{
    let mut words = [u32::OLD; 20];
    let mut labels = [Label::OLD; 20];
    check(
        room.words <= 20 && room.labels <= 20,
        "at most twenty places",
    )?;
    let counts = answer_in(text, &mut words, &mut labels, room)?;
    check(counts == room, "as many words and labels")
}

// Passes where the text is refused as told and writes no word.
pub(crate) fn refused(text: &[u8], told: Refusal) -> Result<(), Wrong>
    ensures { OnOk result (Refuses text.now told) }
{
    let mut words = [u32::OLD; 20];
    let mut labels = [Label::OLD; 20];
    let Err(refusal) = answer(text, &mut words, &mut labels) else {
        return Err(Wrong::Not("refused"));
    };
    is_told(refusal, told)?;
    hold(&words, &[])
}

// Passes where the line is outside the grammar, alone and as the third of four.
pub(crate) fn is_foreign(heap: Global, line: &[u8]) -> Result<(), Wrong>
    ensures { OnOk result (Refuses line.now (refused_at 21 1)) }
{
    refused(line, at_line!(21, 1))?;
    let mut text = b"l:nop\n\n".to_vec(heap)?;
    text.extend_from_slice(line)?;
    text.extend_from_slice(b"\nnop nop")?;
    refused(text.as_slice(), at_line!(21, 3))
}
