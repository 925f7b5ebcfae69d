// The functions of registers that a program's words name, with their codes.
#![tactic(auto)]

ghost use Rattle.std.specs.Prelude.{◌≡◌};
ghost use Rattle.operations.specs.Codes.{binary_code, unary_code, Names};

// D becomes A op B.
#[derive(Clone, Copy, PartialEq, Eq, Debug)]
pub enum Binary {
    Add,
    Sub,
    Mul,
    Div,
}

// D becomes op A.
#[derive(Clone, Copy, PartialEq, Eq, Debug)]
pub enum Unary {
    Floor,
    Abs,
    Sqrt,
}

// A code that no function of so many registers has.
#[derive(Clone, Copy, PartialEq, Eq, Debug)]
pub struct UnknownCode(pub u32);

impl From<Binary> for u32 {
    ghost from_gives = { λ op code. code ≡ binary_code op };

    fn from(op: Binary) -> u32 {
        match op {
            Binary::Add => 0,
            Binary::Sub => 1,
            Binary::Mul => 2,
            Binary::Div => 3,
        }
    }
}

impl From<Unary> for u32 {
    ghost from_gives = { λ op code. code ≡ unary_code op };

    fn from(op: Unary) -> u32 {
        match op {
            Unary::Floor => 4,
            Unary::Abs => 5,
            Unary::Sqrt => 6,
        }
    }
}

impl TryFrom<u32> for Binary {
    type Error = UnknownCode;

    ghost try_from_gives = { Names binary_code };

    fn try_from(code: u32) -> Result<Binary, UnknownCode> {
        match code {
            0 => Ok(Binary::Add),
            1 => Ok(Binary::Sub),
            2 => Ok(Binary::Mul),
            3 => Ok(Binary::Div),
            _ => Err(UnknownCode(code)),
        }
    }
}

impl TryFrom<u32> for Unary {
    type Error = UnknownCode;

    ghost try_from_gives = { Names unary_code };

    fn try_from(code: u32) -> Result<Unary, UnknownCode> {
        match code {
            4 => Ok(Unary::Floor),
            5 => Ok(Unary::Abs),
            6 => Ok(Unary::Sqrt),
            _ => Err(UnknownCode(code)),
        }
    }
}
