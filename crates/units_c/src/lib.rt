// The two units' functions for C: each is the method of its name. C calls each by a name of its own, so none is generic.
#![tactic(auto)]

ghost use Rattle.std.specs.Prelude.{◌≡◌};
ghost use Rattle.units.specs.Rules.{half, single};

use units::{Half, Single, Unit};

#[unsafe(no_mangle)]
pub extern "C" fn half_number(v: i32) -> u32
    ensures { result ≡ half.number v }
{
    Half.number(v)
}

#[unsafe(no_mangle)]
pub extern "C" fn half_add(a: u32, b: u32) -> u32
    ensures { result ≡ half.add a b }
{
    Half.add(a, b)
}

#[unsafe(no_mangle)]
pub extern "C" fn half_sub(a: u32, b: u32) -> u32
    ensures { result ≡ half.sub a b }
{
    Half.sub(a, b)
}

#[unsafe(no_mangle)]
pub extern "C" fn half_mul(a: u32, b: u32) -> u32
    ensures { result ≡ half.mul a b }
{
    Half.mul(a, b)
}

#[unsafe(no_mangle)]
pub extern "C" fn half_div(a: u32, b: u32) -> u32
    ensures { result ≡ half.div a b }
{
    Half.div(a, b)
}

#[unsafe(no_mangle)]
pub extern "C" fn half_floor(a: u32) -> u32
    ensures { result ≡ half.floor a }
{
    Half.floor(a)
}

#[unsafe(no_mangle)]
pub extern "C" fn half_abs(a: u32) -> u32
    ensures { result ≡ half.abs a }
{
    Half.abs(a)
}

#[unsafe(no_mangle)]
pub extern "C" fn half_sqrt(a: u32) -> u32
    ensures { result ≡ half.sqrt a }
{
    Half.sqrt(a)
}

#[unsafe(no_mangle)]
pub extern "C" fn half_negative(a: u32) -> bool
    ensures { result ≡ half.negative a }
{
    Half.negative(a)
}

#[unsafe(no_mangle)]
pub extern "C" fn half_level(a: u32) -> i8
    ensures { result ≡ half.level a }
{
    Half.level(a)
}

#[unsafe(no_mangle)]
pub extern "C" fn single_number(v: i32) -> u32
    ensures { result ≡ single.number v }
{
    Single.number(v)
}

#[unsafe(no_mangle)]
pub extern "C" fn single_add(a: u32, b: u32) -> u32
    ensures { result ≡ single.add a b }
{
    Single.add(a, b)
}

#[unsafe(no_mangle)]
pub extern "C" fn single_sub(a: u32, b: u32) -> u32
    ensures { result ≡ single.sub a b }
{
    Single.sub(a, b)
}

#[unsafe(no_mangle)]
pub extern "C" fn single_mul(a: u32, b: u32) -> u32
    ensures { result ≡ single.mul a b }
{
    Single.mul(a, b)
}

#[unsafe(no_mangle)]
pub extern "C" fn single_div(a: u32, b: u32) -> u32
    ensures { result ≡ single.div a b }
{
    Single.div(a, b)
}

#[unsafe(no_mangle)]
pub extern "C" fn single_floor(a: u32) -> u32
    ensures { result ≡ single.floor a }
{
    Single.floor(a)
}

#[unsafe(no_mangle)]
pub extern "C" fn single_abs(a: u32) -> u32
    ensures { result ≡ single.abs a }
{
    Single.abs(a)
}

#[unsafe(no_mangle)]
pub extern "C" fn single_sqrt(a: u32) -> u32
    ensures { result ≡ single.sqrt a }
{
    Single.sqrt(a)
}

#[unsafe(no_mangle)]
pub extern "C" fn single_negative(a: u32) -> bool
    ensures { result ≡ single.negative a }
{
    Single.negative(a)
}

#[unsafe(no_mangle)]
pub extern "C" fn single_level(a: u32) -> i8
    ensures { result ≡ single.level a }
{
    Single.level(a)
}
