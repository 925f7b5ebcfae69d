// Blocks of bytes, three for each two lanes.
ghost use Rattle.std.specs.Prelude.{◌≡◌, ◌∷◌, []};
ghost use Rattle.sinks.specs.Memories.{packed_bytes, packed_byte, packed_block};

use crate::layout::Layout;
use crate::memory::Memory;

// A sink over bytes.
pub type Packed<'a> = Memory<'a, u8, 24>;

impl Layout<24> for u8 {
    ghost use Rattle.std.proofs.Common.{rules};
    ghost use Rattle.sinks.specs.PackedBlocks.{packed_length, packed_good, packed_back};

    ghost cells = { packed_bytes };

    ghost read = { packed_block };

    ghost good_block = { packed_good };

    // The bytes by index: of bytes written through chunks nothing is known.
    fn write(block: &mut [u8; 24], colours: &[u16; 16]) {
        for (pair, [first, second]) in colours.as_chunks::<2>().0.iter().enumerate() {
            let first = first % 4096;
            let second = second % 4096;
            block[3 * pair] = (first % 256) as u8;
            block[3 * pair + 1] = (first / 256 + second % 16 * 16) as u8;
            block[3 * pair + 2] = (second / 16) as u8;
        }
    }

    fn colour_in(block: &[u8; 24], lane: usize) -> Option<u16> {
        let &[low, middle, high] = block.as_chunks::<3>().0.get(lane / 2)?;
        Some(if lane % 2 == 0 {
            low as u16 + middle as u16 % 16 * 256
        } else {
            middle as u16 / 16 + high as u16 * 16
        })
    }

    ghost wide = { Prim.search rules };

    ghost fits = { Prim.search rules };

    ghost full = { λ values _. packed_length values };

    ghost back = { packed_back };
}
