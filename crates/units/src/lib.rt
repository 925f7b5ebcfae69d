// The arithmetic units of the shader core: what a unit is, and two of them, half and single.
#![tactic(auto)]

mod half;
mod pattern;
mod single;
mod unit;

pub use half::Half;
pub use single::Single;
pub use unit::Unit;
