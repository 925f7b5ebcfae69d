// Shader text to program words.
#![tactic(auto)]

mod assembly;
mod fault;
mod lines;
mod table;
mod word;
mod words;

pub use assembly::assemble;
pub use fault::Fault;
pub use table::{Counts, Label};
