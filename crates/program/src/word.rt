// A program word taken apart.
ghost use Rattle.std.specs.Prelude.{◌≡◌, ◌<◌, ◌≤◌};
ghost use Rattle.program.specs.Words.{Decodes};

use operations::{Binary, Unary, UnknownCode};

// A destination d is register 16 + d, and 0 discards; a source is a register.
#[derive(Clone, Copy, PartialEq, Eq, Debug)]
pub enum Instruction {
    // d becomes a op b
    Binary(Binary, u32, u32, u32),
    // d becomes op a
    Unary(Unary, u32, u32),
    // d becomes a if b is negative
    Cmov(u32, u32, u32),
    // the end of a run
    Done,
    // to the target if a is negative
    Bltz(u32, usize),
    // X becomes the count
    Setx(u32),
    // to the target while X lasts
    Loop(usize),
}

// The error of a word that is too wide, or whose code is not in use.
#[derive(Clone, Copy, PartialEq, Eq, Debug)]
pub struct UnknownWord;

// A word with such a code is no instruction.
impl From<UnknownCode> for UnknownWord {
    fn from(_code: UnknownCode) -> UnknownWord {
        UnknownWord
    }
}

// The instruction of a word.
#[tactic(auto, using(std::proofs::lemmas::Bool::Decides::nat_tests), unfolding(crate::specs::Words::decoded))]
impl TryFrom<u32> for Instruction {
    type Error = UnknownWord;

    ghost try_from_gives = { Decodes };

    fn try_from(word: u32) -> Result<Self, UnknownWord> {
        let d = word / 4096 % 16;
        let a = word / 128 % 32;
        let b = word / 4 % 32;
        match word / 65536 {
            code if code > 15 => Err(UnknownWord),
            code @ 0..=3 => Ok(Instruction::Binary(Binary::try_from(code)?, d, a, b)),
            code @ 4..=6 => Ok(Instruction::Unary(Unary::try_from(code)?, d, a)),
            8 => Ok(Instruction::Cmov(d, a, b)),
            10 => Ok(Instruction::Done),
            13 => Ok(Instruction::Bltz(a, (d * 128 + word % 128) as usize)),
            14 => Ok(Instruction::Setx(word % 65536)),
            15 => Ok(Instruction::Loop((word % 2048) as usize)),
            _ => Err(UnknownWord),
        }
    }
}
