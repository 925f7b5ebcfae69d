// The words of instructions: 20 bits, unused ones 0.
ghost use Rattle.std.specs.Prelude.{◌≡◌, ◌≤◌};
ghost use Rattle.std.specs.Option.{option_map};
ghost use Rattle.grammar.specs.Forms.{ins, Formed};
ghost use Rattle.grammar.specs.Grammar.{opd};
ghost use Rattle.text.specs.Table.{label_used};
ghost use Rattle.text.specs.Words.{value, packed, word_of};

use grammar::{Instruction, Operand};

// The label that an instruction uses.
pub(crate) fn label_used<'a>(code: Instruction<'a>) -> Option<&'a [u8]>
    requires { Formed (ins code) }
    ensures { option_map (λ x. x.now) result ≡ label_used (ins code.entry) }
{
    match code {
        Instruction::Bltz(_, Operand::Label(name)) | Instruction::Loop(Operand::Label(name)) =>
            Some(name),
        _ => None,
    }
}

// The number in an operand; the target stands for a label.
fn value_of(o: Operand, target: u32) -> u32
    ensures { result ≡ value target (opd o.entry) }
{
    match o {
        Operand::Register(v) | Operand::Number(v) => v,
        Operand::Label(_) => target,
    }
}

// A word with a destination, register 16 + D, and the sources A and B.
fn pack(code: u32, d: u32, a: u32, b: u32) -> u32
    requires { (code ≤ 15) × (((16 ≤ d) × (d ≤ 31)) × ((a ≤ 31) × (b ≤ 31))) }
    ensures { result ≡ packed code d a b }
{
    code * 0x1_0000 + (d - 16) * 0x1000 + a * 0x80 + b * 4
}

// The word of an instruction, at the address of the label that it uses. That it is formed is asked here and in two functions more: a
// struct that keeps it would be made and taken apart again in each.
pub(crate) fn word_of(code: Instruction, target: u32) -> u32
    requires { (Formed (ins code)) × (target ≤ 2047) }
    ensures { result ≡ word_of (ins code.entry) target }
{
    match code {
        Instruction::Binary(op, d, a, b) => {
            pack(
                op.into(),
                value_of(d, target),
                value_of(a, target),
                value_of(b, target),
            )
        }
        Instruction::Unary(op, d, a) => {
            pack(op.into(), value_of(d, target), value_of(a, target), 0)
        }
        Instruction::Cmov(d, a, b) => {
            pack(
                8,
                value_of(d, target),
                value_of(a, target),
                value_of(b, target),
            )
        }
        Instruction::Bltz(a, t) => {
            let to = value_of(t, target);
            0xd_0000 + to / 0x80 * 0x1000 + value_of(a, target) * 0x80 + to % 0x80
        }
        Instruction::Setx(v) => 0xe_0000 + value_of(v, target),
        Instruction::Loop(t) => 0xf_0000 + value_of(t, target),
        Instruction::Done => 0xa_0000,
        Instruction::Nop => 0,
    }
}
