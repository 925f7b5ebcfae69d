// A text to words and labels: one reading fills the label table, a second looks the labels up.
ghost use Rattle.std.specs.Prelude.{◌≡◌, ℕ, ◌+◌, ◌^◌, ◌<◌, ◌≤◌, ◌++◌, length, take, drop, nat_lt, OnOk};
ghost use Rattle.std.specs.Option.{option_map};
ghost use Rattle.text.specs.Outcome.{Outcome, OneOutcome, State, Whole, size, labelled};
ghost use Rattle.text.specs.Passes.{Checked, FirstRead, Ready, LabelsRead, WordsRead, words_of};
ghost use Rattle.text.specs.Plain.{GivesBack};
ghost use Rattle.text.specs.Words.{WordFields};

use crate::fault::Fault;
use crate::lines::{Lines, TextLine};
use crate::table::{Counts, Label, Table};
use crate::words::Words;
use grammar::{Line, Run, read_line, run_len};

// What a line says where it is good, or why it is not.
fn check_line<'a>(
    table: Table,
    line: TextLine<'a>,
    counts: Counts,
    room: Counts,
) -> Result<Line<'a>, Fault>
    requires { (counts.words < 2 ^ 32) × (counts.labels < 2 ^ 32) }
    ensures { Checked table.entry.text.now room.words room.labels table.entry.labels.now counts line.entry.bytes.now line.entry.number result }
{
    let said = read_line(line.bytes, line.number).ok_or(Fault::Grammar(line.number))?;
    if !table.is_free(said.label) {
        return Err(Fault::Twice(line.number));
    }
    if !counts.after(said).fit(room) {
        return Err(Fault::NoRoom(line.number));
    }
    Ok(said)
}

// Enters the label of a good line, if it has one.
fn enter(labels: &mut [Label], counts: Counts, label: Option<&[u8]>, place: usize)
    requires { counts.labels + size (option_map (λ x. x.now) label) ≤ length labels.old }
    ensures { labels.new ≡ take counts.labels labels.old ++ (labelled place counts.words (option_map (λ x. x.now) label.entry) ++ drop (counts.labels + size (option_map (λ x. x.now) label.entry)) labels.old) }
{
    if let Some(name) = label {
        labels[counts.labels] = Label {
            place,
            length: name.len(),
            address: counts.words,
        };
    }
}

// The first reading: tests each line in order, and enters its label once it is good.
fn first_reading(text: &[u8], words: usize, labels: &mut [Label]) -> Result<Counts, Fault>
    requires { length text.now ≤ 65535 }
    ensures { FirstRead text.now words labels.old result labels.new }
{
    let room = Counts {
        words,
        labels: labels.len(),
    };
    let mut counts = Counts {
        words: 0,
        labels: 0,
    };
    for line in Lines::of(text) {
        let table = Table {
            text,
            labels: &labels[..counts.labels],
        };
        let said = check_line(table, line, counts, room)?;
        let place = line.place + run_len(line.bytes, Run::Spaces);
        enter(labels, counts, said.label, place);
        counts = counts.after(said);
    }
    Ok(counts)
}

// Whether each label that a good text uses is known, or the first line where one is not. That a text is ready is asked here and in two
// functions more: it speaks of the places for words too, which no struct holds.
fn check_words(table: Table) -> Result<(), Fault>
    requires { (W : ℕ) × Ready table.text.now W table.labels.now }
    ensures { (s : State) (W L : ℕ) → Whole table.entry.text.now W L s → table.entry.labels.now ≡ s.defs → LabelsRead table.entry.text.now s result }
{
    for word in Words::of(table) {
        word?;
    }
    Ok(())
}

// Writes the words of a good text, up to the first line that uses a label in vain. At their numbers, since what is written through
// `iter_mut` is not known afterwards.
fn put_words(table: Table, words: &mut [u32]) -> Result<(), Fault>
    requires { Ready table.text.now (length words.old) table.labels.now }
    ensures { (s : State) (L : ℕ) → Whole table.entry.text.now (length words.old) L s → table.entry.labels.now ≡ s.defs → LabelsRead table.entry.text.now s result × OnOk result (words.new ≡ words_of table.entry.text.now s s.code ++ drop (length s.code) words.old) }
{
    for (at, word) in Words::of(table).enumerate() {
        words[at] = word?;
    }
    Ok(())
}

// Writes the words of a good text if all its labels are known, and else nothing.
fn write_words(table: Table, words: &mut [u32]) -> Result<(), Fault>
    requires { Ready table.text.now (length words.old) table.labels.now }
    ensures { (s : State) (L : ℕ) → Whole table.entry.text.now (length words.old) L s → table.entry.labels.now ≡ s.defs → WordsRead table.entry.text.now s result words.old words.new }
{
    check_words(table)?;
    put_words(table, words)
}

// Whether a text has more bytes than it may have.
fn is_too_long(text: &[u8]) -> bool
    ensures { result ≡ nat_lt 65535 (length text.now) }
{
    text.len() > 65535
}

// Assembles a text: its labels go into the table, its words are written only if all is well. Three slices, and no struct, as callers have
// them.
pub fn assemble(text: &[u8], words: &mut [u32], labels: &mut [Label]) -> Result<Counts, Fault>
    ensures outcome { Outcome text.now words.old labels.old result words.new labels.new }
    ensures alone { OneOutcome text.now words.old labels.old }
    ensures formats { WordFields }
    ensures plain { GivesBack text.now words.old labels.old result words.new }
{
    if is_too_long(text) {
        return Err(Fault::TooLong);
    }
    let counts = first_reading(text, words.len(), labels)?;
    let table = Table {
        text,
        labels: &labels[..counts.labels],
    };
    write_words(table, words)?;
    Ok(counts)
}
