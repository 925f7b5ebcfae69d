// The lines that the programs print, as values: the words of a program, and one refusal.
#![tactic(auto)]

ghost use Rattle.std.specs.Prelude.{◌≡◌, ◌%◌, Some, IfOk, string_bytes};
ghost use Rattle.std.specs.List.{flat_map};
ghost use Rattle.listing.specs.Lines.{hex_digit, word_line, LowerHex, hex_value, Reads, place_word, refusal_text, refusal_line};

use std::alloc::{AllocError, Global};
use std::fmt;

// Which part refused: the place in a text is a line, and in a program an address.
#[derive(Clone, Copy, PartialEq, Eq, Debug)]
pub enum Layer {
    Text,
    Program,
}

// What its places are called.
impl fmt::Display for Layer {
    ghost output = { λ layer. Some (place_word layer) };

    fn fmt<W: fmt::Write>(&self, f: &mut fmt::Formatter<W>) -> fmt::Result {
        f.write_str(match self {
            Layer::Text => "line",
            Layer::Program => "address",
        })
    }
}

// The number of the rule that was broken, and where. The reasons are enums of those who refuse; a number is what is printed.
#[derive(Clone, Copy, PartialEq, Eq, Debug)]
pub struct Refusal {
    pub number: u32,
    pub layer: Layer,
    pub place: u32,
}

// Its number, and the place that it speaks of.
impl fmt::Display for Refusal {
    ghost output = { λ refusal. Some (refusal_text refusal) };

    fn fmt<W: fmt::Write>(&self, f: &mut fmt::Formatter<W>) -> fmt::Result {
        write!(
            f,
            "refused {} at {} {}",
            self.number, self.layer, self.place
        )
    }
}

// The digit for the low four bits of a value. Not by `{:x}`, since a line of a word asks for no memory and cannot fail.
fn hex_digit(value: u32) -> u8
    ensures digit { result ≡ hex_digit (value % 16) }
    ensures stands { (LowerHex result) × (hex_value result ≡ value % 16) }
{
    let nibble = (value % 16) as u8;
    if nibble < 10 {
        b'0' + nibble
    } else {
        b'a' + (nibble - 10)
    }
}

// The low twenty bits of a word as five digits, the highest first, and the newline.
pub fn word_line(word: u32) -> [u8; 6]
    ensures line { result ≡ word_line word }
    ensures reads { Reads word result }
{
    [
        hex_digit(word >> 16),
        hex_digit(word >> 12),
        hex_digit(word >> 8),
        hex_digit(word >> 4),
        hex_digit(word),
        b'\n',
    ]
}

// The lines of the words, one after the other.
pub fn word_lines(heap: Global, words: &[u32]) -> Result<Vec<u8>, AllocError>
    ensures { IfOk result (λ v. v.items ≡ flat_map word_line words.now) }
{
    let mut lines = Vec::new(heap);
    for word in words {
        lines.extend_from_slice(&word_line(*word))?;
    }
    Ok(lines)
}

// The line of a refusal.
pub fn refusal_line(heap: Global, refusal: &Refusal) -> Result<String, AllocError>
    ensures { IfOk result (λ s. string_bytes s ≡ refusal_line refusal.now) }
{
    format!(in heap; "{refusal}\n")
}

#[cfg(test)]
mod tests {
    use super::*;
    use std::test::Fail;

    #[test]
    fn words(rt: HostRuntime) {
        assert_eq!(rt; word_line(0x01800), *b"01800\n");
        assert_eq!(rt; word_line(0xa0000), *b"a0000\n");
        assert_eq!(rt;
            word_line(0xfff9_bcde),
            *b"9bcde\n",
            "only the low twenty bits"
        );
    }

    #[test]
    fn lists_of_words(rt: HostRuntime) -> Result<(), Fail> {
        let lines = word_lines(rt.alloc(), &[0x01800, 0xa0000])?;
        assert_eq!(rt; lines.as_slice(), b"01800\na0000\n".as_slice());
        let none = word_lines(rt.alloc(), &[])?;
        assert!(rt; none.is_empty());
        Ok(())
    }

    #[test]
    fn refusals(rt: HostRuntime) -> Result<(), Fail> {
        let heap = rt.alloc();
        let text = Refusal {
            number: 1,
            layer: Layer::Text,
            place: u32::MAX,
        };
        assert_eq!(rt;
            refusal_line(heap, &text)?.as_str(),
            "refused 1 at line 4294967295\n"
        );
        let program = Refusal {
            number: u32::MAX,
            layer: Layer::Program,
            place: 1,
        };
        assert_eq!(rt;
            refusal_line(heap, &program)?.as_str(),
            "refused 4294967295 at address 1\n"
        );
        Ok(())
    }
}
