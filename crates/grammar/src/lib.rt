// One line of shader text: its tokens, its operands, and what it says.
#![tactic(auto)]

mod instruction;
mod line;
mod operand;
mod token;

pub use instruction::Instruction;
pub use line::{Line, read_line};
pub use operand::Operand;
pub use operations::{Binary, Unary};
pub use token::{Run, run_len};
