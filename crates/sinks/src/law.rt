// What holds of every sink, as functions that do it.
ghost use Rattle.std.specs.Prelude.{◌≡◌};
ghost use Rattle.sinks.specs.Pictures.{Put};
ghost use Rattle.sinks.specs.Laws.{PutThenGot};

use crate::fault::Fault;
use crate::sink::{Pictured, Sink};

// A put and then a get: the block that was put has its colours, and every other one has what it had.
pub fn put_then_get<S: Sink>(
    sink: &mut S,
    place: usize,
    colours: &[u16; 16],
    at: usize,
    lane: usize,
) -> Result<u16, Fault>
    ensures outcome { PutThenGot (S.Pictured.picture sink.old) place colours.now at lane result (S.Pictured.picture sink.new) }
    ensures lent { S.Pictured.lent sink.new ≡ S.Pictured.lent sink.old }
{
    sink.put(place, colours)?;
    sink.get(at, lane)
}

// Two puts at one place: what the second leaves alone.
pub fn put_twice<S: Sink>(
    sink: &mut S,
    place: usize,
    first: &[u16; 16],
    second: &[u16; 16],
) -> Result<(), Fault>
    ensures outcome { Put (S.Pictured.picture sink.old) place second.now result (S.Pictured.picture sink.new) }
    ensures lent { S.Pictured.lent sink.new ≡ S.Pictured.lent sink.old }
{
    sink.put(place, first)?;
    sink.put(place, second)
}

// The same put in two sinks: equal pictures stay equal, and so do the answers.
pub fn put_both<A: Sink, B: Sink>(
    one: &mut A,
    other: &mut B,
    place: usize,
    colours: &[u16; 16],
) -> (Result<(), Fault>, Result<(), Fault>)
    ensures one { Put (A.Pictured.picture one.old) place colours.now result.0 (A.Pictured.picture one.new) }
    ensures other { Put (B.Pictured.picture other.old) place colours.now result.1 (B.Pictured.picture other.new) }
    ensures equal { A.Pictured.picture one.old ≡ B.Pictured.picture other.old → (A.Pictured.picture one.new ≡ B.Pictured.picture other.new) × (result.0 ≡ result.1) }
    ensures lent { (A.Pictured.lent one.new ≡ A.Pictured.lent one.old) × (B.Pictured.lent other.new ≡ B.Pictured.lent other.old) }
{
    (one.put(place, colours), other.put(place, colours))
}
