// Blocks of 16-bit numbers, one for each lane.
ghost use Rattle.sinks.specs.Memories.{plain_block};

use crate::layout::Layout;
use crate::memory::Memory;

// A sink over numbers.
pub type Plain<'a> = Memory<'a, u16, 16>;

impl Layout<16> for u16 {
    ghost use Rattle.std.proofs.Common.{rules};
    ghost use Rattle.sinks.specs.PlainBlocks.{plain_length, plain_good, plain_twice};

    ghost cells = { plain_block };

    ghost read = { plain_block };

    ghost good_block = { plain_good };

    // By the lane's number: of numbers written through a zip nothing is known, and a map of the array takes over ten times as long.
    fn write(block: &mut [u16; 16], colours: &[u16; 16]) {
        for (lane, number) in block.iter_mut().enumerate() {
            *number = colours[lane] % 4096;
        }
    }

    fn colour_in(block: &[u16; 16], lane: usize) -> Option<u16> {
        block.get(lane).map(|number| *number % 4096)
    }

    ghost wide = { Prim.search rules };

    ghost fits = { Prim.search rules };

    ghost full = { plain_length };

    ghost back = { λ values _. plain_twice values };
}
