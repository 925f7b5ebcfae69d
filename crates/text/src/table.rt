// The labels of a text, in a table that the caller lends.
ghost use Rattle.std.specs.Prelude.{◌≡◌, ◌^◌, ◌<◌, ◌≤◌, ◌↔◌, IsTrue, length};
ghost use Rattle.std.specs.List.{All};
ghost use Rattle.std.specs.Option.{option_map};
ghost use Rattle.std.specs.Str.{bytes_eq};
ghost use Rattle.grammar.specs.Forms.{ins, Formed};
ghost use Rattle.text.specs.Outcome.{Fresh};
ghost use Rattle.text.specs.Passes.{counted};
ghost use Rattle.text.specs.Table.{name_in, address_of, Within, WordFor};

use crate::word::{label_used, word_of};
use grammar::{Instruction, Line};

// A label: where its name stands in the text, how long it is, and how many words come before it. By place and length, and not as a
// part of the text, since the table is the caller's, with entries from before the call.
#[derive(Clone, Copy, PartialEq, Eq, Debug)]
pub struct Label {
    pub place: usize,
    pub length: usize,
    pub address: usize,
}

// How many words and labels a text has.
#[derive(Clone, Copy, PartialEq, Eq, Debug)]
pub struct Counts {
    pub words: usize,
    pub labels: usize,
}

impl Counts {
    // The counts behind one more line.
    pub(crate) fn after(self, said: Line) -> Counts
        requires { (self.words < 2 ^ 32) × (self.labels < 2 ^ 32) }
        ensures { result ≡ counted self said.entry }
    {
        Counts {
            words: self.words + usize::from(said.code.is_some()),
            labels: self.labels + usize::from(said.label.is_some()),
        }
    }

    // Whether there are places for so many words and labels.
    pub(crate) fn fit(self, room: Counts) -> bool
        ensures { IsTrue result ↔ ((self.words ≤ room.words) × (self.labels ≤ room.labels)) }
    {
        self.words <= room.words && self.labels <= room.labels
    }
}

// The labels of a text, with the text that their names lie in.
#[derive(Clone, Copy)]
pub(crate) struct Table<'a> {
    pub(crate) text: &'a [u8],
    pub(crate) labels: &'a [Label],
    ghost within: { All (Within text.now) labels.now },
    ghost short: { length text.now ≤ 65535 },
}

impl Table<'_> {
    // Whether the label has this name.
    fn is_named(&self, label: &Label, name: &[u8]) -> bool
        requires { Within self.now.text.now label.now }
        ensures { result ≡ bytes_eq (name_in self.now.text.now label.now) name.now }
    {
        let end = label.place + label.length;
        let own = &self.text[label.place..end];
        // The lengths and the last bytes first: with `own == name` alone 2,000 labels and 2,000 uses take 70 ms, and not 20.
        own.len() == name.len() && own.last() == name.last() && own == name
    }

    // The address of the label with this name.
    fn address_of(&self, name: &[u8]) -> Option<usize>
        ensures { result ≡ address_of self.now.text.now self.now.labels.now name.now }
    {
        self.labels
            .iter()
            .find(|label| self.is_named(*label, name))
            .map(|label| label.address)
    }

    // Whether no label of the table has the name.
    pub(crate) fn is_free(&self, label: Option<&[u8]>) -> bool
        ensures { IsTrue result ↔ Fresh self.now.text.now self.now.labels.now (option_map (λ x. x.now) label.entry) }
    {
        match label {
            Some(name) => self.address_of(name).is_none(),
            None => true,
        }
    }

    // The word of an instruction, or none where its label is unknown or lies above 2,047.
    pub(crate) fn word_for(&self, code: Instruction) -> Option<u32>
        requires { Formed (ins code) }
        ensures { WordFor self.now.text.now self.now.labels.now (ins code.entry) result }
    {
        let Some(name) = label_used(code) else {
            return Some(word_of(code, 0));
        };
        let address = self.address_of(name)?;
        if address > 2047 {
            return None;
        }
        Some(word_of(code, address as u32))
    }
}
