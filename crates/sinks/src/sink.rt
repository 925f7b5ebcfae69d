// What a sink is: at most 19,200 blocks of sixteen 12-bit colours.
ghost use Rattle.std.specs.Prelude.{◌≡◌, List};
ghost use Rattle.std.specs.Borrow.{GName};
ghost use Rattle.sinks.specs.Pictures.{Picture, Good, Put, block_count, get_answer};

use crate::fault::Fault;

// The most blocks that a sink has.
pub const MOST: usize = 19_200;

// What holds a picture, which is always a good one.
pub trait Pictured {
    ghost picture: { Self → Picture };

    // The memories that are lent to it.
    ghost lent: { Self → List GName };

    ghost good: { (s : Self) → Good (picture s) };
}

// Blocks that are put and read one at a time.
pub trait Sink: Pictured {
    // How many blocks there are.
    fn count(&self) -> usize
        ensures { result ≡ block_count (Self.Pictured.picture self.now) };

    // Replaces a block by the low twelve bits of sixteen values.
    fn put(&mut self, place: usize, colours: &[u16; 16]) -> Result<(), Fault>
        ensures outcome { Put (Self.Pictured.picture self.old) place colours.now result (Self.Pictured.picture self.new) }
        ensures lent { Self.Pictured.lent self.new ≡ Self.Pictured.lent self.old };

    // The colour of a lane of a block.
    fn get(&self, place: usize, lane: usize) -> Result<u16, Fault>
        ensures { result ≡ get_answer (Self.Pictured.picture self.now) place lane };
}
