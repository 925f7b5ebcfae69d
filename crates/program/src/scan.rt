// Scans of a program for its setxs and its loops.
ghost use Rattle.std.specs.Prelude.{◌↔◌, IsTrue, length};
ghost use Rattle.program.specs.Scans.{SetxIn, LoopOver};

use crate::word::Instruction;

// Whether a setx stands from one address up to another.
pub(crate) fn has_setx(words: &[u32], low: usize, high: usize) -> bool
    ensures { IsTrue result ↔ SetxIn words.now low high }
{
    let end = high.min(words.len());
    low < end
        && words[low..end].iter().any(|word| matches!(
            Instruction::try_from(*word),
            Ok(Instruction::Setx(_))
        ))
}

// Whether a loop at or above the address goes back below it.
pub(crate) fn is_looped_over(words: &[u32], address: usize) -> bool
    ensures { IsTrue result ↔ LoopOver words.now address (length words.now) }
{
    address < words.len()
        && words[address..].iter().any(
            |word| matches!(Instruction::try_from(*word), Ok(Instruction::Loop(start)) if start < address),
        )
}
