// A sink over memory that is lent, in any layout.
ghost use Rattle.std.specs.Prelude.{◌≡◌, ◌<◌, [], ◌∷◌, length};
ghost use Rattle.sinks.specs.Pictures.{Put, block_count, get_answer};
ghost use Rattle.sinks.specs.Memories.{count_in, part_at, picture_in, replaced, written};
ghost use Rattle.sinks.specs.Parts.{good_in};

use crate::fault::Fault;
use crate::layout::Layout;
use crate::sink::{MOST, Pictured, Sink};

#[derive(Drop)]
pub struct Memory<'a, T, const N: usize> {
    memory: &'a mut [T],
}

impl<'a, T, const N: usize> Memory<'a, T, N> {
    // A sink over this memory, which stays as it is.
    pub fn over(memory: &'a mut [T]) -> Memory<'a, T, N>
        ensures holds { result.memory.now ≡ memory.old }
        ensures lent { result.memory.ghost_name ≡ memory.entry.ghost_name }
    {
        Memory { memory }
    }
}

// Writes the colours of one block.
fn write_block<T: Layout<N>, const N: usize>(block: &mut [T], colours: &[u16; 16])
    requires { length block.old ≡ N }
    ensures { block.new ≡ T.cells colours.now }
{
    T::write(block.as_mut_array().unwrap(), colours);
}

// Writes one block of the memory.
fn put_block<T: Layout<N>, const N: usize>(memory: &mut [T], place: usize, colours: &[u16; 16])
    requires { place < count_in N memory.old }
    ensures { memory.new ≡ replaced N place (T.cells colours.now) memory.old }
{
    write_block(&mut memory[N * place..N * place + N], colours);
}

// One block of the memory.
fn block_at<T: Layout<N>, const N: usize>(memory: &[T], place: usize) -> &[T; N]
    requires { place < count_in N memory.now }
    ensures { result.now ≡ part_at N place memory.now }
{
    memory[N * place..N * place + N].as_array().unwrap()
}

impl<'a, T: Layout<N>, const N: usize> Pictured for Memory<'a, T, N> {
    ghost picture = { λ s. picture_in N T.read s.memory.now };

    ghost lent = { λ s. s.memory.ghost_name ∷ [] };

    ghost good = { λ s. good_in N T.read s.memory.now T.good_block };
}

impl<'a, T: Layout<N>, const N: usize> Sink for Memory<'a, T, N> {
    fn count(&self) -> usize
        ensures picture { result ≡ block_count (picture_in N T.read self.now.memory.now) }
        ensures whole { result ≡ count_in N self.now.memory.now }
    {
        (self.memory.len() / N).min(MOST)
    }

    fn put(&mut self, place: usize, colours: &[u16; 16]) -> Result<(), Fault>
        ensures outcome { Put (picture_in N T.read self.old.memory.now) place colours.now result (picture_in N T.read self.new.memory.now) }
        ensures whole { self.new.memory.now ≡ written N place (T.cells colours.now) self.old.memory.now }
        ensures lent { self.new.memory.ghost_name ∷ [] ≡ self.old.memory.ghost_name ∷ [] }
        ensures lender { self.new.memory.ghost_name ≡ self.old.memory.ghost_name }
    {
        if place >= self.count() {
            return Err(Fault::Place);
        }
        put_block(self.memory, place, colours);
        Ok(())
    }

    fn get(&self, place: usize, lane: usize) -> Result<u16, Fault>
        ensures { result ≡ get_answer (picture_in N T.read self.now.memory.now) place lane }
    {
        if place >= self.count() {
            return Err(Fault::Place);
        }
        T::colour_in(block_at(self.memory, place), lane).ok_or(Fault::Lane)
    }
}
