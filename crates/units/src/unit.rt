// What a unit is: ten functions on 32-bit words, each fixed by a rule. None refuses, none remembers.
ghost use Rattle.std.specs.Prelude.{◌≡◌};
ghost use Rattle.units.specs.Rules.{Rules};

// A unit's value fixes all its answers.
pub trait Unit {
    ghost rules: { Self → Rules };

    // The word of v / 65536.
    fn number(&self, v: i32) -> u32
        ensures { result ≡ (rules self.now).number v };

    fn add(&self, a: u32, b: u32) -> u32
        ensures { result ≡ (rules self.now).add a b };

    fn sub(&self, a: u32, b: u32) -> u32
        ensures { result ≡ (rules self.now).sub a b };

    fn mul(&self, a: u32, b: u32) -> u32
        ensures { result ≡ (rules self.now).mul a b };

    fn div(&self, a: u32, b: u32) -> u32
        ensures { result ≡ (rules self.now).div a b };

    // The greatest whole number not above a.
    fn floor(&self, a: u32) -> u32
        ensures { result ≡ (rules self.now).floor a };

    fn abs(&self, a: u32) -> u32
        ensures { result ≡ (rules self.now).abs a };

    fn sqrt(&self, a: u32) -> u32
        ensures { result ≡ (rules self.now).sqrt a };

    // Whether the sign is set.
    fn negative(&self, a: u32) -> bool
        ensures { result ≡ (rules self.now).negative a };

    // The nearest whole number, held to -128..127.
    fn level(&self, a: u32) -> i8
        ensures { result ≡ (rules self.now).level a };
}
