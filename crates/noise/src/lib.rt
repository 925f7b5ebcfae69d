// The noise that dithers colours: 144 bits that step by a shift and four taps.
#![tactic(auto)]

mod dither;
mod law;
mod register;

pub use dither::{channel, colour};
pub use law::{one_step, worked_steps};
pub use register::Noise;
