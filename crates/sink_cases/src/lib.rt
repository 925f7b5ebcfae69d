// Examples of the sinks, and what a put through one leaves of the memory that was lent.
#![tactic(auto)]

ghost use Rattle.std.specs.Prelude.{◌≡◌};
ghost use Rattle.sinks.specs.Memories.{written, plain_block, packed_bytes, packed_picture};
ghost use Rattle.sinks.specs.Pictures.{after_put};

use sinks::{Fault, Layout, Memory, Packed, Sink, put_then_get};

#[cfg(test)]
mod layout;
#[cfg(test)]
mod limits;
#[cfg(test)]
mod refusals;
#[cfg(test)]
mod splits;

// Puts one block into a memory of any layout.
fn put_into<T: Layout<N>, const N: usize>(
    memory: &mut [T],
    place: usize,
    colours: &[u16; 16],
) -> Result<(), Fault>
    ensures { memory.new ≡ written N place (T.cells colours.now) memory.old }
{
    Memory::over(memory).put(place, colours)
}

// Puts one block into a memory of numbers.
pub(crate) fn put_plain(memory: &mut [u16], place: usize, colours: &[u16; 16]) -> Result<(), Fault>
    ensures { memory.new ≡ written 16 place (plain_block colours.now) memory.old }
{
    put_into(memory, place, colours)
}

// Puts one block into a memory of bytes.
pub(crate) fn put_packed(bytes: &mut [u8], place: usize, colours: &[u16; 16]) -> Result<(), Fault>
    ensures { bytes.new ≡ written 24 place (packed_bytes colours.now) bytes.old }
{
    put_into(bytes, place, colours)
}

// Into bytes through a function that takes any sink: they hold what it leaves.
pub(crate) fn put_and_read(
    bytes: &mut [u8],
    place: usize,
    colours: &[u16; 16],
    lane: usize,
) -> Result<u16, Fault>
    ensures { packed_picture bytes.new ≡ after_put (packed_picture bytes.old) place colours.now }
{
    let mut sink = Packed::over(bytes);
    put_then_get(&mut sink, place, colours, place, lane)
}
