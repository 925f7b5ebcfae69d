// The slot limit of a program.
ghost use Rattle.std.specs.Prelude.{◌+◌, ◌≡◌, ◌≤◌};
ghost use Rattle.program.specs.Limits.{Limit};
ghost use Rattle.program.specs.Rules.{Accepted};

use crate::place::Place;
use crate::word::Instruction;

// Where the body of a loop begins, and the count that feeds it.
#[derive(Clone, Copy)]
struct Body {
    target: usize,
    count: u32,
    ghost narrow: { count ≤ 65535 },
}

impl Body {
    ghost use Rattle.program.specs.Bodies.{Next, weight_of};

    // The body of the next loop at or above a place, where that above the place is known.
    fn next(place: Place, above: Option<Body>) -> Option<Body>
        requires accepted { Accepted place.words.now }
        requires known { Next place.words.now (place.address + 1) above }
        ensures { Next place.entry.words.now place.entry.address result }
    {
        match place.instruction() {
            Some(Instruction::Loop(target)) => place.feeder().map(|setx| Body {
                target,
                count: setx.count,
            }),
            _ => above,
        }
    }

    // How often an address counts, below the next loop.
    fn weight(body: Option<Body>, address: usize) -> u32
        ensures { result ≡ weight_of body address }
    {
        body.filter(|body| body.target <= address)
            .map_or(1, |body| body.count + 1)
    }
}

// The most slots that a run takes: each address counts once, in the body of a loop COUNT + 1 times.
pub(crate) fn slot_limit(words: &[u32]) -> u32
    requires { Accepted words.now }
    ensures limit { Limit words.now result }
    ensures most { result ≤ 134086658 }
{
    let mut limit = 0;
    let mut body = None;
    for address in (0..words.len()).rev() {
        body = Body::next(Place { words, address }, body);
        limit += Body::weight(body, address);
    }
    limit
}
