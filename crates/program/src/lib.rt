// Programs of the core: words taken apart, the rules that a program has to keep, and its slot limit.
#![tactic(auto)]

ghost use Rattle.program.specs.Cases.{WorkedPrograms};

mod fault;
mod limit;
mod place;
mod rules;
mod scan;
mod word;

pub use fault::Fault;
pub use operations::{Binary, Unary};
pub use rules::check;
pub use word::{Instruction, UnknownWord};

// Three programs that were worked by hand, from the rules.
pub fn worked_programs()
    ensures { WorkedPrograms }
{}
