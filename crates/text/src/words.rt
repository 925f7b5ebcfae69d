// The words of a good text, one after the other.
ghost use Rattle.std.specs.Prelude.{◌≡◌, ◌+◌, ◌-◌, ◌≤◌, length};
ghost use Rattle.std.specs.Iterator.{at_most};
ghost use Rattle.text.specs.Passes.{CodeIn, NextWord};

use crate::fault::Fault;
use crate::lines::{Lines, TextLine};
use crate::table::Table;
use grammar::{Instruction, read_line};

// The words of a good text that are left, or the faults where a label is not known.
#[derive(Drop)]
pub(crate) struct Words<'a> {
    table: Table<'a>,
    lines: Lines<'a>,
    ghost same: { lines.text.now ≡ table.text.now },
}

// The instruction of a line that is known to be good.
fn code_of<'a>(line: TextLine<'a>) -> Option<Instruction<'a>>
    ensures { CodeIn line.entry.bytes.now result }
{
    read_line(line.bytes, line.number)?.code
}

impl<'a> Words<'a> {
    // All words of a good text with its labels.
    pub(crate) fn of(table: Table<'a>) -> Words<'a>
        ensures table { result.table ≡ table.entry }
        ensures at { result.lines.at ≡ 0 }
        ensures count { result.lines.count ≡ 0 }
    {
        Words {
            table,
            lines: Lines::of(table.text),
        }
    }
}

impl Iterator for Words<'_> {
    type Item = Result<u32, Fault>;

    ghost next_gives = { λ s r t. (t.table ≡ s.table) × NextWord s.table.text.now s.table.labels.now s.lines.at s.lines.count r t.lines.at t.lines.count };

    ghost remaining = { λ s. at_most (length s.table.text.now + 1 - s.lines.at) };

    fn next(&mut self) -> Option<Result<u32, Fault>> {
        while let Some(line) = self.lines.next() {
            if let Some(code) = code_of(line) {
                let word = self.table.word_for(code);
                return Some(word.ok_or(Fault::Unknown(line.number)));
            }
        }
        None
    }
}
