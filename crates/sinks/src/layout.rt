// How a block lies in memory: in so many cells of one type.
ghost use Rattle.std.specs.Prelude.{◌≡◌, ◌<◌, ◌*◌, ◌^◌, ℕ, List, map, length, slice_get};
ghost use Rattle.std.specs.Mem.{type_size};
ghost use Rattle.sinks.specs.Pictures.{GoodBlock, colour_of};

// A cell of memory, N of which hold a block.
pub trait Layout<const N: usize>: Copy {
    // The cells that hold a block of sixteen values.
    ghost cells: { List ℕ → List Self };

    // The colours of the block that cells hold.
    ghost read: { List Self → List ℕ };

    // Any N cells hold a block.
    ghost good_block: { (block : List Self) → length block ≡ N → GoodBlock (read block) };

    // Writes the low twelve bits of sixteen values.
    fn write(block: &mut [Self; N], colours: &[u16; 16])
        ensures { block.new ≡ cells colours.now };

    // The colour of a lane; above lane 15 there is none.
    fn colour_in(block: &[Self; N], lane: usize) -> Option<u16>
        ensures { result ≡ slice_get (read block.now) lane };

    // A block has cells, and fits in memory.
    ghost wide: { 0 < N };

    ghost fits: { N * type_size Self.row < 2 ^ 63 };

    // The cells of a block are N, and read back as the low twelve bits.
    ghost full: { (values : List ℕ) → length values ≡ 16 → length (cells values) ≡ N };

    ghost back: { (values : List ℕ) → length values ≡ 16 → read (cells values) ≡ map colour_of values };
}
