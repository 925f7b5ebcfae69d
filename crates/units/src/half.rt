// The half unit: IEEE binary16 in the low 16 bits of a word, by integers.
ghost use Rattle.std.specs.Prelude.{◌≡◌, ◌==◌, ◌+◌, ◌*◌, ◌/◌, ◌%◌, ◌^◌, ◌<◌, if◌then◌else◌};
ghost use Rattle.ieee.specs.Formats as Formats;
ghost use Rattle.ieee.specs.Rounding as Rounding;
ghost use Rattle.ieee.specs.Operations as Operations;
ghost use Rattle.units.specs.Patterns.{meaning, quarters_below};
ghost use Rattle.ieee.specs.Laws.{Right, Floored, Levelled};
ghost use Rattle.units.specs.Laws.{Twice};
ghost use Rattle.units.specs.Rules.{half};

use crate::pattern::{Finite, Format, Magnitude, Value, significand};
use crate::unit::Unit;

// It has nothing to remember.
#[derive(Clone, Copy, PartialEq, Eq, Debug, Drop)]
pub struct Half;

const HALF: Format<11, 15> = Format {};

// A sign and a count of smallest values.
#[derive(Clone, Copy, PartialEq, Eq, Debug, Drop)]
struct Exact {
    negative: bool,
    n: u64,
    ghost bound: { n < 2 ^ 41 },
}

impl Finite<11, 15> {
    // An infinity of this sign, or no number where the value is 0.
    fn endless_unless_zero(self, s: bool) -> u32
        ensures { result ≡ (if self.pattern == 0 then Formats.quiet 11 15 else Formats.signed 11 15 s (Formats.infinity 11 15)) }
    {
        if self.pattern == 0 {
            HALF.quiet()
        } else {
            HALF.endless(s)
        }
    }

    // How many smallest values the magnitude is.
    fn count(self) -> u64
        ensures value { result ≡ Formats.steps 11 self.pattern }
        ensures bound { result < 2 ^ 40 }
    {
        let Magnitude { digits, exponent } = HALF.parts_of(self.pattern);
        digits << exponent
    }
}

impl Exact {
    // The sum of two finite values.
    fn sum(x: Finite<11, 15>, y: Finite<11, 15>) -> Exact
        ensures { Rounding.fraction result.negative result.n 1 ≡ Operations.finite_sum x.negative (Formats.steps 11 x.pattern) y.negative (Formats.steps 11 y.pattern) }
    {
        let a = x.count();
        let b = y.count();
        if x.negative == y.negative {
            Exact {
                negative: x.negative,
                n: a + b,
            }
        } else {
            Exact {
                negative: if a < b {
                    y.negative
                } else {
                    x.negative && b < a
                },
                n: a.abs_diff(b),
            }
        }
    }

    // Its word.
    fn word(self) -> u32
        ensures { result ≡ Formats.signed 11 15 self.negative (Rounding.round 11 15 self.n 1) }
    {
        HALF.signed(self.negative, HALF.rounded(2 * self.n, 1))
    }
}

// The word of a sum.
#[inline]
fn sum(x: Value<11, 15>, y: Value<11, 15>) -> u32
    ensures { result ≡ Rounding.word 11 15 (Operations.sum (meaning 11 15 x) (meaning 11 15 y)) }
{
    match (x, y) {
        (Value::Finite(x), Value::Finite(y)) => Exact::sum(x, y).word(),
        (Value::Infinite(s), Value::Finite(_)) => HALF.endless(s),
        (Value::Finite(_), Value::Infinite(t)) => HALF.endless(t),
        (Value::Infinite(s), Value::Infinite(t)) => {
            if s == t {
                HALF.endless(s)
            } else {
                HALF.quiet()
            }
        }
        (Value::NotNumber, _) | (_, Value::NotNumber) => HALF.quiet(),
    }
}

// The product of two finite values.
fn finite_product(x: Finite<11, 15>, y: Finite<11, 15>) -> u32
    ensures { result ≡ Formats.signed 11 15 (Operations.unlike x.negative y.negative) (Rounding.round 11 15 (Formats.steps 11 x.pattern * Formats.steps 11 y.pattern) (2 ^ 24)) }
{
    let a = HALF.parts_of(x.pattern);
    let b = HALF.parts_of(y.pattern);
    let digits = 2 * (a.digits * b.digits);
    let exponent = a.exponent + b.exponent;
    let pattern = if exponent < 24 {
        HALF.rounded(digits, 25 - exponent)
    } else {
        HALF.rounded(digits << (exponent - 24), 1)
    };
    HALF.signed(x.negative != y.negative, pattern)
}

// The word of a product.
fn product(x: Value<11, 15>, y: Value<11, 15>) -> u32
    ensures { result ≡ Rounding.word 11 15 (Operations.product 24 (meaning 11 15 x) (meaning 11 15 y)) }
{
    match (x, y) {
        (Value::Finite(x), Value::Finite(y)) => finite_product(x, y),
        (Value::Infinite(s), Value::Finite(y)) => y.endless_unless_zero(s != y.negative),
        (Value::Finite(x), Value::Infinite(t)) => x.endless_unless_zero(x.negative != t),
        (Value::Infinite(s), Value::Infinite(t)) => HALF.endless(s != t),
        (Value::NotNumber, _) | (_, Value::NotNumber) => HALF.quiet(),
    }
}

// Four times r / d cut to a whole number, where what is cut off makes it odd.
fn quarters_below(r: u64, d: u64) -> u64
    requires { (r < d) × (d < 2 ^ 40) }
    ensures value { result ≡ quarters_below r d }
    ensures bound { result < 4 }
{
    let half = if d <= 2 * r { 2 } else { 0 };
    let rest = if r == 0 || 2 * r == d { 0 } else { 1 };
    half + rest
}

// The same of any n / d.
fn quarters(n: u64, d: u64) -> u64
    requires { (0 < d) × (d < 2 ^ 40) × (n < 2 ^ 40 * d) }
    ensures value { result ≡ 4 * (n / d) + quarters_below (n % d) d }
    ensures bound { result < 2 ^ 43 }
{
    4 * (n / d) + quarters_below(n % d, d)
}

// The quotient of two finite values, the second not 0.
fn finite_quotient(x: Finite<11, 15>, y: Finite<11, 15>) -> u32
    requires { 0 < y.pattern }
    ensures { result ≡ Formats.signed 11 15 (Operations.unlike x.negative y.negative) (Rounding.round 11 15 (Formats.steps 11 x.pattern * 2 ^ 24) (Formats.steps 11 y.pattern)) }
{
    let a = x.count() << 24;
    let b = y.count();
    let pattern = if b <= a >> 40 {
        HALF.infinity()
    } else {
        HALF.rounded(quarters(a, b), 2)
    };
    HALF.signed(x.negative != y.negative, pattern)
}

// The word of a quotient.
fn quotient(x: Value<11, 15>, y: Value<11, 15>) -> u32
    ensures { result ≡ Rounding.word 11 15 (Operations.quotient 24 (meaning 11 15 x) (meaning 11 15 y)) }
{
    match (x, y) {
        (Value::Finite(x), Value::Finite(y)) => {
            if y.pattern == 0 {
                x.endless_unless_zero(x.negative != y.negative)
            } else {
                finite_quotient(x, y)
            }
        }
        (Value::Infinite(s), Value::Finite(y)) => HALF.endless(s != y.negative),
        (Value::Finite(x), Value::Infinite(t)) => HALF.signed(x.negative != t, 0),
        (Value::Infinite(_), Value::Infinite(_)) => HALF.quiet(),
        (Value::NotNumber, _) | (_, Value::NotNumber) => HALF.quiet(),
    }
}

// v / 65536, rounded to single and then to half. The single unit's has the same three lines; one function
// for both would take the formula as a closure, and be longer than the two.
fn number(v: i32) -> u32
    ensures { result ≡ half.number v }
{
    let x = v.unsigned_abs();
    if x == 0 {
        return 0;
    }
    let z = x.leading_zeros();
    let digits = significand(x, z);
    HALF.signed(v < 0, HALF.rounded(digits << 17, z + 1))
}

#[tactic(auto, using(crate::proofs::Rights::rights))]
impl Unit for Half {
    ghost rules = { λ _. half };

    fn number(&self, v: i32) -> u32
        ensures rule { result ≡ half.number v }
        ensures right { Twice v result }
        ensures width { result < 2 ^ 16 }
    {
        number(v)
    }

    fn add(&self, a: u32, b: u32) -> u32
        ensures rule { result ≡ half.add a b }
        ensures right { Right 11 15 (Operations.sum (Formats.decode 11 15 a) (Formats.decode 11 15 b)) result }
        ensures width { result < 2 ^ 16 }
    {
        sum(HALF.decode(a), HALF.decode(b))
    }

    fn sub(&self, a: u32, b: u32) -> u32
        ensures rule { result ≡ half.sub a b }
        ensures right { Right 11 15 (Operations.sum (Formats.decode 11 15 a) (Operations.opposite (Formats.decode 11 15 b))) result }
        ensures width { result < 2 ^ 16 }
    {
        sum(HALF.decode(a), -HALF.decode(b))
    }

    fn mul(&self, a: u32, b: u32) -> u32
        ensures rule { result ≡ half.mul a b }
        ensures right { Right 11 15 (Operations.product 24 (Formats.decode 11 15 a) (Formats.decode 11 15 b)) result }
        ensures width { result < 2 ^ 16 }
    {
        product(HALF.decode(a), HALF.decode(b))
    }

    fn div(&self, a: u32, b: u32) -> u32
        ensures rule { result ≡ half.div a b }
        ensures right { Right 11 15 (Operations.quotient 24 (Formats.decode 11 15 a) (Formats.decode 11 15 b)) result }
        ensures width { result < 2 ^ 16 }
    {
        quotient(HALF.decode(a), HALF.decode(b))
    }

    fn floor(&self, a: u32) -> u32
        ensures rule { result ≡ half.floor a }
        ensures right { Floored 11 15 (Formats.decode 11 15 a) result }
        ensures width { result < 2 ^ 16 }
    {
        HALF.floor(a)
    }

    fn abs(&self, a: u32) -> u32
        ensures rule { result ≡ half.abs a }
        ensures right { Formats.decode 11 15 result ≡ Operations.unsigned (Formats.decode 11 15 a) }
        ensures width { result < 2 ^ 16 }
    {
        HALF.abs(a)
    }

    fn sqrt(&self, a: u32) -> u32
        ensures rule { result ≡ half.sqrt a }
        ensures right { Right 11 15 (Operations.square_root 24 (Formats.decode 11 15 a)) result }
        ensures width { result < 2 ^ 16 }
    {
        HALF.sqrt(a)
    }

    fn negative(&self, a: u32) -> bool
        ensures { result ≡ half.negative a }
    {
        HALF.negative(a)
    }

    fn level(&self, a: u32) -> i8
        ensures rule { result ≡ half.level a }
        ensures right { Levelled 24 (Formats.decode 11 15 a) result }
    {
        HALF.level(a)
    }
}
