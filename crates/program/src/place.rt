// One address of a program, and what it breaks.
ghost use Rattle.std.specs.Prelude.{◌≡◌, ◌<◌, ◌≤◌, ◌↔◌, IsTrue, length, slice_index};
ghost use Rattle.program.specs.Rules.{WrongWord, WrongEnding, WrongTarget, SkipsSetx, WrongLoop, EntersLoop};
ghost use Rattle.program.specs.Words.{decoded};

use crate::scan::{has_setx, is_looped_over};
use crate::word::Instruction;

// A program and one of its addresses.
#[derive(Clone, Copy)]
pub(crate) struct Place<'a> {
    pub(crate) words: &'a [u32],
    pub(crate) address: usize,
    ghost inside: { address < length words.now },
}

// A setx, by its address and its count.
#[derive(Clone, Copy)]
pub(crate) struct Setx {
    pub(crate) address: usize,
    pub(crate) count: u32,
    ghost narrow: { count ≤ 65535 },
}

impl Place<'_> {
    ghost use Rattle.program.specs.Scans.{Feeder};

    // The instruction there, or none where the word has none.
    pub(crate) fn instruction(self) -> Option<Instruction>
        ensures { result ≡ decoded (slice_index self.entry.words.now self.entry.address) }
    {
        Instruction::try_from(self.words[self.address]).ok()
    }

    // The nearest setx before it, unless a loop stands between.
    pub(crate) fn feeder(self) -> Option<Setx>
        ensures { Feeder self.entry.words.now self.entry.address result }
    {
        // A `for`, since words of two kinds end it, and only one of them is found.
        for address in (0..self.address).rev() {
            let place = Place {
                words: self.words,
                address,
            };
            match place.instruction() {
                Some(Instruction::Setx(count)) => return Some(Setx { address, count }),
                Some(Instruction::Loop(_)) => return None,
                _ => {}
            }
        }
        None
    }

    // Whether the word has no instruction.
    pub(crate) fn is_wrong_word(self) -> bool
        ensures { IsTrue result ↔ WrongWord self.entry.words.now self.entry.address }
    {
        self.instruction().is_none()
    }

    // Whether the last word is not done, or another is.
    pub(crate) fn is_wrong_ending(self) -> bool
        ensures { IsTrue result ↔ WrongEnding self.entry.words.now self.entry.address }
    {
        let is_last = self.address + 1 == self.words.len();
        match self.instruction() {
            Some(Instruction::Done) => !is_last,
            _ => is_last,
        }
    }

    // Whether a branch goes back, or past the last word.
    pub(crate) fn is_wrong_target(self) -> bool
        ensures { IsTrue result ↔ WrongTarget self.entry.words.now self.entry.address }
    {
        match self.instruction() {
            Some(Instruction::Bltz(_, target)) => {
                target <= self.address || self.words.len() <= target
            }
            _ => false,
        }
    }

    // Whether a branch goes over a setx.
    pub(crate) fn skips_setx(self) -> bool
        ensures { IsTrue result ↔ SkipsSetx self.entry.words.now self.entry.address }
    {
        match self.instruction() {
            Some(Instruction::Bltz(_, target)) => has_setx(self.words, self.address + 1, target),
            _ => false,
        }
    }

    // Whether a loop goes forward, or has no setx of its own before its target.
    pub(crate) fn is_wrong_loop(self) -> bool
        ensures { IsTrue result ↔ WrongLoop self.entry.words.now self.entry.address }
    {
        match self.instruction() {
            Some(Instruction::Loop(target)) => self
                .feeder()
                .is_none_or(|setx| target <= setx.address || self.address < target),
            _ => false,
        }
    }

    // Whether a branch goes into the body of a loop.
    pub(crate) fn enters_loop(self) -> bool
        ensures { IsTrue result ↔ EntersLoop self.entry.words.now self.entry.address }
    {
        match self.instruction() {
            Some(Instruction::Bltz(_, target)) => is_looped_over(self.words, target),
            _ => false,
        }
    }
}
