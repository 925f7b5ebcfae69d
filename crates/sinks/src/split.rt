// A sink made of two others: the first one's blocks and then the second one's, cut at 19,200.
ghost use Rattle.std.specs.Prelude.{◌≡◌, ◌++◌};
ghost use Rattle.sinks.specs.Pictures.{Put, PutInRow, joined};
ghost use Rattle.sinks.specs.Joins.{good_joined};

use crate::fault::Fault;
use crate::sink::{MOST, Pictured, Sink};

#[derive(Drop)]
pub struct Split<A, B> {
    first: A,
    second: B,
}

impl<A, B> Split<A, B> {
    // The one sink in front of the other.
    pub fn of(first: A, second: B) -> Split<A, B>
        ensures before { result.first ≡ first }
        ensures behind { result.second ≡ second }
    {
        Split { first, second }
    }
}

impl<A: Pictured, B: Pictured> Pictured for Split<A, B> {
    ghost picture = { λ s. joined (A.Pictured.picture s.first) (B.Pictured.picture s.second) };

    ghost lent = { λ s. A.Pictured.lent s.first ++ B.Pictured.lent s.second };

    ghost good = { λ s. good_joined _ _ (A.Pictured.good s.first) (B.Pictured.good s.second) };
}

impl<A: Sink, B: Sink> Sink for Split<A, B> {
    fn count(&self) -> usize {
        (self.first.count() + self.second.count()).min(MOST)
    }

    // The same choice as in `get`, but a choice made once would have to lend one of two sinks for writing.
    fn put(&mut self, place: usize, colours: &[u16; 16]) -> Result<(), Fault>
        ensures outcome { Put (joined (A.Pictured.picture self.old.first) (B.Pictured.picture self.old.second)) place colours.now result (joined (A.Pictured.picture self.new.first) (B.Pictured.picture self.new.second)) }
        ensures lent { A.Pictured.lent self.new.first ++ B.Pictured.lent self.new.second ≡ A.Pictured.lent self.old.first ++ B.Pictured.lent self.old.second }
        ensures sides { PutInRow (A.Pictured.picture self.old.first) (B.Pictured.picture self.old.second) place colours.now result (A.Pictured.picture self.new.first) (B.Pictured.picture self.new.second) }
    {
        let split = self.first.count();
        if place >= MOST {
            Err(Fault::Place)
        } else if place < split {
            self.first.put(place, colours)
        } else {
            self.second.put(place - split, colours)
        }
    }

    fn get(&self, place: usize, lane: usize) -> Result<u16, Fault> {
        let split = self.first.count();
        if place >= MOST {
            Err(Fault::Place)
        } else if place < split {
            self.first.get(place, lane)
        } else {
            self.second.get(place - split, lane)
        }
    }
}
