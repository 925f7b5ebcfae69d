// Binary formats: what a word stands for, and magnitudes by their patterns, taken apart, rounded, cut to whole numbers. One text
// for every format.
ghost use Rattle.std.specs.Prelude.{◌≡◌, ◌+◌, ◌-◌, ◌*◌, ◌%◌, ◌^◌, ◌<◌, ◌≤◌, min, ◌⊎◌};
ghost use Rattle.std.specs.Float.Ieee.Nearest as Nearest;
ghost use Rattle.ieee.specs.Formats as Formats;
ghost use Rattle.ieee.specs.Rounding as Rounding;
ghost use Rattle.ieee.specs.Operations as Operations;

use std::ops::Neg;

// A format of precision P and greatest exponent E, with sizes that the code's numbers hold.
#[derive(Clone, Copy, PartialEq, Eq, Debug, Drop)]
pub(crate) struct Format<const P: u32, const E: u32> {
    ghost least: { 8 ≤ P },
    ghost most: { P ≤ 24 },
    ghost reach: { P ≤ E },
    ghost bound: { E ≤ 127 },
}

// A finite value: its sign, and the pattern of its magnitude.
#[derive(Clone, Copy, PartialEq, Eq, Debug, Drop)]
pub(crate) struct Finite<const P: u32, const E: u32> {
    pub(crate) negative: bool,
    pub(crate) pattern: u32,
    ghost below: { pattern < Formats.infinity P E },
}

// What a word stands for.
#[derive(Clone, Copy, PartialEq, Eq, Debug, Drop)]
pub(crate) enum Value<const P: u32, const E: u32> {
    NotNumber,
    Infinite(bool),
    Finite(Finite<P, E>),
}

// The value with the other sign.
impl<const P: u32, const E: u32> Neg for Value<P, E> {
    ghost use Rattle.units.specs.Patterns.{meaning};

    type Output = Value<P, E>;

    ghost neg_gives = { λ x r. meaning P E r ≡ Operations.opposite (meaning P E x) };

    fn neg(self) -> Value<P, E> {
        match self {
            Value::NotNumber => Value::NotNumber,
            Value::Infinite(s) => Value::Infinite(!s),
            Value::Finite(Finite { negative, pattern }) => Value::Finite(Finite {
                negative: !negative,
                pattern,
            }),
        }
    }
}

// A magnitude of digits * 2^exponent smallest values.
#[derive(Clone, Copy, PartialEq, Eq, Debug, Drop)]
pub(crate) struct Magnitude {
    pub(crate) digits: u64,
    pub(crate) exponent: u32,
}

// digits * 2^shift as n * 4^j.
#[derive(Clone, Copy, PartialEq, Eq, Debug, Drop)]
struct Radicand {
    n: u64,
    j: u32,
    ghost small: { n < 2 ^ 48 },
}

// 2^k.
fn power(k: u32) -> u32
    requires { k < 32 }
    ensures { result ≡ 2 ^ k }
{
    1 << k
}

// The lowest k bits.
fn low_bits(m: u32, k: u32) -> u32
    requires { k < 32 }
    ensures { result ≡ m % 2 ^ k }
{
    m & (power(k) - 1)
}

// n / 2^s to the nearest whole number, a tie to the even one.
fn closest(n: u64, s: u32) -> u64
    requires { (n < 2 ^ 62) × (1 ≤ s) × (s < 62) }
    ensures { result ≡ Nearest.closest n (2 ^ s) }
{
    let odd = (n >> s) % 2;
    (n + ((1 << (s - 1)) - 1 + odd)) >> s
}

// The 24 digits that v / 65536 rounds to at single, for x = |v| with z leading zeros.
pub(crate) fn significand(x: u32, z: u32) -> u64
    requires { (z ≤ 31) × (x * 2 ^ z < 2 ^ 32) }
    ensures value { result ≡ Nearest.closest (x * 2 ^ z) (2 ^ 8) }
    ensures bound { result ≤ 2 ^ 24 }
{
    closest((x as u64) << z, 8)
}

// A whole number with its sign, held to -128..127.
fn held(s: bool, n: u64) -> i8
    ensures { result ≡ Operations.held_level s n }
{
    if s {
        (-(n.min(128) as i16)) as i8
    } else {
        n.min(127) as i8
    }
}

impl Radicand {
    // A better guess at the root.
    fn better(self, guess: u64) -> u64
        requires { (1 ≤ guess) × (guess ≤ 2 ^ 24) }
        ensures { (1 ≤ result) × (result ≤ 2 ^ 24) }
    {
        ((guess + self.n / guess) / 2).clamp(1, 1 << 24)
    }

    // The whole root, from a guess that need not be good. With the library's isqrt a half's sqrt takes five times as long.
    fn root_from(self, guess: u64) -> u64
        requires { guess ≤ 2 ^ 24 }
        ensures low { result * result ≤ self.n }
        ensures high { self.n < (result + 1) * (result + 1) }
    {
        let n = self.n;
        let mut root = if n < guess * guess { guess - 1 } else { guess };
        while n < root * root {
            root -= 1;
        }
        while (root + 1) * (root + 1) <= n {
            root += 1;
        }
        root
    }
}

#[tactic(auto, using(crate::proofs::Sizes::fits))]
impl<const P: u32, const E: u32> Format<P, E> {
    ghost use Rattle.units.specs.Patterns.{meaning, whole_pattern, NearRoot, root_pattern};

    // The weight of the exponent's field.
    pub(crate) fn hidden(self) -> u32
        ensures { result ≡ Formats.hidden P }
    {
        1 << (P - 1)
    }

    // The smallest value above 0 is 2^-low.
    fn low(self) -> u32
        ensures { result ≡ Formats.low P E }
    {
        E + P - 2
    }

    // Infinity's pattern.
    pub(crate) fn infinity(self) -> u32
        ensures { result ≡ Formats.infinity P E }
    {
        (2 * E + 1) * self.hidden()
    }

    // The weight of the sign.
    fn sign(self) -> u32
        ensures { result ≡ Formats.sign_weight P E }
    {
        (2 * E + 2) * self.hidden()
    }

    // The word of what is not a number.
    pub(crate) fn quiet(self) -> u32
        ensures { result ≡ Formats.quiet P E }
    {
        self.infinity() + self.hidden() / 2
    }

    // The word of a sign and a pattern.
    pub(crate) fn signed(self, s: bool, m: u32) -> u32
        requires { m ≤ Formats.infinity P E }
        ensures { result ≡ Formats.signed P E s m }
    {
        if s { self.sign() + m } else { m }
    }

    // The word of an infinity.
    pub(crate) fn endless(self, s: bool) -> u32
        ensures { result ≡ Formats.signed P E s (Formats.infinity P E) }
    {
        self.signed(s, self.infinity())
    }

    // The word without its sign and without bits above the format's width.
    pub(crate) fn abs(self, w: u32) -> u32
        ensures { result ≡ Operations.abs P E w }
    {
        w % self.sign()
    }

    // Whether the sign is set.
    pub(crate) fn negative(self, w: u32) -> bool
        ensures { result ≡ Formats.negative P E w }
    {
        w / self.sign() % 2 == 1
    }

    // What a word stands for.
    pub(crate) fn decode(self, w: u32) -> Value<P, E>
        ensures { meaning P E result ≡ Formats.decode P E w }
    {
        let pattern = self.abs(w);
        let negative = self.negative(w);
        if pattern < self.infinity() {
            Value::Finite(Finite { negative, pattern })
        } else if pattern == self.infinity() {
            Value::Infinite(negative)
        } else {
            Value::NotNumber
        }
    }

    // The pattern nearest to n / 2^s smallest values, as if there were no greatest exponent.
    fn near(self, n: u64, s: u32) -> u32
        requires { (n < 2 ^ 60) × (1 ≤ s) × (s < 60) }
        ensures { result ≡ Rounding.near P n (2 ^ s) }
    {
        let size = 64 - n.leading_zeros();
        let cut = size.saturating_sub(P).max(s);
        let kept = closest(n, cut);
        (cut - s) * self.hidden() + kept as u32
    }

    // n / 2^s smallest values, rounded. The two come from other numbers at each caller, so they make no struct.
    pub(crate) fn rounded(self, n: u64, s: u32) -> u32
        requires { (n < 2 ^ 60) × (1 ≤ s) × (s < 60) }
        ensures value { result ≡ Rounding.round P E n (2 ^ s) }
        ensures bound { result ≤ Formats.infinity P E }
    {
        self.near(n, s).min(self.infinity())
    }

    // A pattern taken apart.
    pub(crate) fn parts_of(self, m: u32) -> Magnitude
        ensures value { Formats.steps P m ≡ result.digits * 2 ^ result.exponent }
        ensures parts { m ≡ result.exponent * Formats.hidden P + result.digits }
        ensures digits { result.digits < 2 ^ P }
        ensures leading { (result.exponent ≡ 0) ⊎ (Formats.hidden P ≤ result.digits) }
    {
        let h = self.hidden();
        if m < h {
            Magnitude {
                digits: m as u64,
                exponent: 0,
            }
        } else {
            Magnitude {
                digits: (h + low_bits(m, P - 1)) as u64,
                exponent: (m >> (P - 1)) - 1,
            }
        }
    }

    // The pattern of the whole number at a finite value or next to it: of the greatest one that is not above.
    fn whole_pattern(self, x: Finite<P, E>) -> u32
        ensures value { result ≡ whole_pattern P E x.entry.negative x.entry.pattern }
        ensures bound { result ≤ Formats.infinity P E }
    {
        let m = x.pattern;
        let up = x.negative;
        let low = self.low();
        let exponent = self.parts_of(m).exponent;
        if low <= exponent {
            return m;
        }
        let cut = low - exponent;
        if P <= cut {
            return if up && 0 < m { E * self.hidden() } else { 0 };
        }
        let unit = power(cut);
        let rest = low_bits(m, cut);
        if up && 0 < rest {
            m - rest + unit
        } else {
            m - rest
        }
    }

    // The greatest whole number not above a word's value.
    pub(crate) fn floor(self, w: u32) -> u32
        ensures { result ≡ Operations.floor P E w }
    {
        match self.decode(w) {
            Value::NotNumber => self.quiet(),
            Value::Infinite(s) => self.endless(s),
            Value::Finite(x) => self.signed(x.negative, self.whole_pattern(x)),
        }
    }

    // The whole number nearest to a magnitude, or 128 where it is more than that.
    fn nearest_whole(self, m: u32) -> u64
        ensures { min result 128 ≡ min (Nearest.closest (Formats.steps P m) (2 ^ Formats.low P E)) 128 }
    {
        let low = self.low();
        let parts = self.parts_of(m);
        if low <= parts.exponent {
            128
        } else {
            closest(parts.digits, (low - parts.exponent).min(60))
        }
    }

    // The nearest whole number, a tie to the even one, held to -128..127.
    pub(crate) fn level(self, w: u32) -> i8
        ensures { result ≡ Operations.level P E w }
    {
        match self.decode(w) {
            Value::NotNumber => 0,
            Value::Infinite(s) => held(s, 128),
            Value::Finite(x) => held(x.negative, self.nearest_whole(x.pattern)),
        }
    }

    // A first guess at the root: for an n of 2P - 1 or of 2P digits a straight line that is off by a sixtieth at most.
    fn line(self, x: Radicand) -> u64
        ensures { (1 ≤ result) × (result ≤ 2 ^ 24) }
    {
        let short = x.n >> (2 * P - 1) == 0;
        let base: u64 = if short { 154 } else { 217 };
        let slope: u64 = if short { 213 } else { 151 };
        let guess = (base << P >> 9) + ((x.n >> P) * slope >> 8);
        guess.clamp(1, 1 << 24)
    }

    // The whole root of n.
    fn whole_root(self, x: Radicand) -> u64
        ensures low { result * result ≤ x.n }
        ensures high { x.n < (result + 1) * (result + 1) }
    {
        let first = x.better(self.line(x));
        let guess = if P <= 12 { first } else { x.better(first) };
        x.root_from(guess)
    }

    // With an n of 2P - 1 or 2P digits.
    fn radicand_of(self, digits: u64, shift: u32) -> Radicand
        requires { (0 < digits) × (digits < 2 ^ P) × (2 * P ≤ shift + 2) × (shift < 2 ^ 16) }
        ensures value { digits * 2 ^ shift ≡ result.n * 4 ^ result.j }
        ensures least { 2 ^ (2 * P - 2) ≤ result.n }
        ensures most { result.n < 2 ^ (2 * P) }
        ensures small { 2 * result.j + P ≤ shift + 1 }
    {
        let size = 64 - digits.leading_zeros();
        let j = (size + shift - (2 * P - 1)) / 2;
        Radicand {
            n: digits << (shift - 2 * j),
            j,
        }
    }

    // The whole number nearest to the root of n. No root lies in the middle between two.
    fn nearest_root(self, x: Radicand) -> u32
        ensures { NearRoot x.n result }
    {
        let root = self.whole_root(x);
        let kept = if root < x.n - root * root {
            root + 1
        } else {
            root
        };
        kept as u32
    }

    // The pattern nearest to the root of a finite value's magnitude, which is not 0.
    fn root_pattern(self, x: Finite<P, E>) -> u32
        requires { 0 < x.pattern }
        ensures { result ≡ root_pattern P E x.entry.pattern }
    {
        let Magnitude { digits, exponent } = self.parts_of(x.pattern);
        let radicand = self.radicand_of(digits, exponent + self.low());
        radicand.j * self.hidden() + self.nearest_root(radicand)
    }

    // The square root of a word's value.
    pub(crate) fn sqrt(self, w: u32) -> u32
        ensures { result ≡ Operations.sqrt P E w }
    {
        match self.decode(w) {
            Value::NotNumber => self.quiet(),
            Value::Infinite(s) => if s { self.quiet() } else { self.infinity() },
            Value::Finite(x) => {
                if x.pattern == 0 {
                    self.signed(x.negative, 0)
                } else if x.negative {
                    self.quiet()
                } else {
                    self.root_pattern(x)
                }
            }
        }
    }
}
