// Where finished blocks go: sixteen 12-bit colours each, in memory that the caller lends.
#![tactic(auto)]

mod fault;
mod law;
mod layout;
mod memory;
mod packed;
mod plain;
mod sink;
mod split;

pub use fault::Fault;
pub use law::{put_both, put_then_get, put_twice};
pub use layout::Layout;
pub use memory::Memory;
pub use packed::Packed;
pub use plain::Plain;
pub use sink::{MOST, Pictured, Sink};
pub use split::Split;
