// The single unit: IEEE binary32. Sums, products and quotients are the language's f32; number, floor and sqrt are integers.
ghost use Rattle.std.specs.Prelude.{◌≡◌};
ghost use Rattle.ieee.specs.Formats as Formats;
ghost use Rattle.ieee.specs.Operations as Operations;
ghost use Rattle.ieee.specs.Laws.{Right, Floored, Levelled};
ghost use Rattle.units.specs.Rules.{single};

use crate::pattern::{Format, significand};
use crate::unit::Unit;
use std::num::{f32_from_bits_with_nan, f32_to_bits_with_nan};

// It has nothing to remember.
#[derive(Clone, Copy, PartialEq, Eq, Debug, Drop)]
pub struct Single;

const SINGLE: Format<24, 127> = Format {};

// v / 65536, rounded.
fn number(v: i32) -> u32
    ensures { result ≡ single.number v }
{
    let x = v.unsigned_abs();
    if x == 0 {
        return 0;
    }
    let z = x.leading_zeros();
    let digits = significand(x, z) as u32;
    SINGLE.signed(v < 0, (141 - z) * SINGLE.hidden() + digits)
}

// Half has an impl like this one. One for both takes two traits more, a law for number and some 70 lines, and its clauses name
// members of a trait where these say 24 and 127.
#[tactic(auto, using(crate::proofs::Rights::floats))]
impl Unit for Single {
    ghost rules = { λ _. single };

    fn number(&self, v: i32) -> u32
        ensures rule { result ≡ single.number v }
        ensures right { Right 24 127 (Operations.scaled 149 v) result }
    {
        number(v)
    }

    fn add(&self, a: u32, b: u32) -> u32
        ensures rule { result ≡ single.add a b }
        ensures right { Right 24 127 (Operations.sum (Formats.decode 24 127 a) (Formats.decode 24 127 b)) result }
    {
        f32_to_bits_with_nan(f32_from_bits_with_nan(a) + f32_from_bits_with_nan(b))
    }

    fn sub(&self, a: u32, b: u32) -> u32
        ensures rule { result ≡ single.sub a b }
        ensures right { Right 24 127 (Operations.sum (Formats.decode 24 127 a) (Operations.opposite (Formats.decode 24 127 b))) result }
    {
        f32_to_bits_with_nan(f32_from_bits_with_nan(a) - f32_from_bits_with_nan(b))
    }

    fn mul(&self, a: u32, b: u32) -> u32
        ensures rule { result ≡ single.mul a b }
        ensures right { Right 24 127 (Operations.product 149 (Formats.decode 24 127 a) (Formats.decode 24 127 b)) result }
    {
        f32_to_bits_with_nan(f32_from_bits_with_nan(a) * f32_from_bits_with_nan(b))
    }

    fn div(&self, a: u32, b: u32) -> u32
        ensures rule { result ≡ single.div a b }
        ensures right { Right 24 127 (Operations.quotient 149 (Formats.decode 24 127 a) (Formats.decode 24 127 b)) result }
    {
        f32_to_bits_with_nan(f32_from_bits_with_nan(a) / f32_from_bits_with_nan(b))
    }

    fn floor(&self, a: u32) -> u32
        ensures rule { result ≡ single.floor a }
        ensures right { Floored 24 127 (Formats.decode 24 127 a) result }
    {
        SINGLE.floor(a)
    }

    fn abs(&self, a: u32) -> u32
        ensures rule { result ≡ single.abs a }
        ensures right { Formats.decode 24 127 result ≡ Operations.unsigned (Formats.decode 24 127 a) }
    {
        SINGLE.abs(a)
    }

    fn sqrt(&self, a: u32) -> u32
        ensures rule { result ≡ single.sqrt a }
        ensures right { Right 24 127 (Operations.square_root 149 (Formats.decode 24 127 a)) result }
    {
        SINGLE.sqrt(a)
    }

    fn negative(&self, a: u32) -> bool
        ensures { result ≡ single.negative a }
    {
        SINGLE.negative(a)
    }

    fn level(&self, a: u32) -> i8
        ensures rule { result ≡ single.level a }
        ensures right { Levelled 149 (Formats.decode 24 127 a) result }
    {
        SINGLE.level(a)
    }
}
