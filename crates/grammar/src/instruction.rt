// Instructions: their names, and the operands that each takes.
ghost use Rattle.grammar.specs.Forms.{NamedBy, FormedBy, CodeAt};
ghost use Rattle.grammar.specs.Grammar.{opds};

use crate::operand::Operand::{self, Label, Number, Register};
use crate::operand::{Operands, operands_of};
use crate::token::Rest;
use operations::{Binary, Unary};

// The first register that can be written; the last is $31.
const FIRST_DESTINATION: u32 = 16;

// What the first name of an instruction says.
#[derive(Clone, Copy, PartialEq, Eq, Debug)]
pub enum Mnemonic {
    Binary(Binary),
    Unary(Unary),
    Cmov,
    Bltz,
    Setx,
    Loop,
    Done,
    Nop,
}

// An instruction with its operands, the destination first.
#[derive(Clone, Copy, PartialEq, Eq, Debug)]
pub enum Instruction<'a> {
    Binary(Binary, Operand<'a>, Operand<'a>, Operand<'a>),
    Unary(Unary, Operand<'a>, Operand<'a>),
    Cmov(Operand<'a>, Operand<'a>, Operand<'a>),
    Bltz(Operand<'a>, Operand<'a>),
    Setx(Operand<'a>),
    Loop(Operand<'a>),
    Done,
    Nop,
}

// The instruction of this name. A function, since `TryFrom` would need an error that says no more than `None`.
fn mnemonic_of(name: &[u8]) -> Option<Mnemonic>
    ensures { NamedBy name.now result }
{
    Some(match name {
        b"add" => Mnemonic::Binary(Binary::Add),
        b"sub" => Mnemonic::Binary(Binary::Sub),
        b"mul" => Mnemonic::Binary(Binary::Mul),
        b"div" => Mnemonic::Binary(Binary::Div),
        b"floor" => Mnemonic::Unary(Unary::Floor),
        b"abs" => Mnemonic::Unary(Unary::Abs),
        b"sqrt" => Mnemonic::Unary(Unary::Sqrt),
        b"cmov" => Mnemonic::Cmov,
        b"bltz" => Mnemonic::Bltz,
        b"setx" => Mnemonic::Setx,
        b"loop" => Mnemonic::Loop,
        b"done" => Mnemonic::Done,
        b"nop" => Mnemonic::Nop,
        _ => return None,
    })
}

// The instruction of a name with these operands.
fn formed(m: Mnemonic, list: Operands<'_>) -> Option<Instruction<'_>>
    ensures { FormedBy m (opds list.entry) result }
{
    match (m, list) {
        (Mnemonic::Binary(op), Operands::Three(d @ Register(n), a @ Register(_), b @ Register(_)))
            if n >= FIRST_DESTINATION => Some(Instruction::Binary(op, d, a, b)),
        (Mnemonic::Unary(op), Operands::Two(d @ Register(n), a @ Register(_)))
            if n >= FIRST_DESTINATION => Some(Instruction::Unary(op, d, a)),
        (Mnemonic::Cmov, Operands::Three(d @ Register(n), a @ Register(_), b @ Register(_)))
            if n >= FIRST_DESTINATION => Some(Instruction::Cmov(d, a, b)),
        (Mnemonic::Bltz, Operands::Two(a @ Register(_), t @ Label(_))) => {
            Some(Instruction::Bltz(a, t))
        }
        (Mnemonic::Setx, Operands::One(v @ Number(_))) => Some(Instruction::Setx(v)),
        (Mnemonic::Loop, Operands::One(t @ Label(_))) => Some(Instruction::Loop(t)),
        (Mnemonic::Done, Operands::Zero) => Some(Instruction::Done),
        (Mnemonic::Nop, Operands::Zero) => Some(Instruction::Nop),
        _ => None,
    }
}

// The instruction that a name and the rest of its line write.
pub(crate) fn code_at<'a>(name: &[u8], rest: Rest<'a>) -> Option<Instruction<'a>>
    ensures { CodeAt name.now rest.entry.bytes.now result }
{
    let m = mnemonic_of(name)?;
    let list = operands_of(rest)?;
    formed(m, list)
}
