// What is printed of a text: its words, or the line that refuses it.
ghost use Rattle.std.specs.Prelude.{◌≡◌};
ghost use Rattle.assemble.specs.Prints.{Prints};
ghost use Rattle.assemble.specs.declared.report.Failure.TheVariants.{Memory};

use listing::{refusal_line, word_lines};
use std::alloc::{AllocError, Global};
use text::{Label, assemble};

// Why a text has no words to print.
#[derive(Debug, Drop)]
pub enum Failure {
    // it is refused, with this line
    Refused(String),
    // there is no memory for the lines
    Memory(AllocError),
}

// Want of memory is a failure.
impl From<AllocError> for Failure {
    ghost from_gives = { λ error failure. failure ≡ Memory error };

    fn from(error: AllocError) -> Failure {
        Failure::Memory(error)
    }
}

// The lines of a text's words, assembled with 2,048 places for words and for labels: arrays, since the call is lent its places.
pub fn report_on(heap: Global, text: &[u8]) -> Result<Vec<u8>, Failure>
    ensures { Prints text.now result }
{
    let mut words = [0u32; 2048];
    let mut labels = [Label {
        place: 0,
        length: 0,
        address: 0,
    }; 2048];
    match assemble(text, &mut words, &mut labels) {
        Ok(counts) => Ok(word_lines(heap, &words[..counts.words])?),
        Err(fault) => Err(Failure::Refused(refusal_line(heap, &fault.into())?)),
    }
}

#[cfg(test)]
mod tests {
    use super::*;
    use std::test::Fail;

    #[test]
    fn words(rt: HostRuntime) -> Result<(), Fail> {
        let lines = report_on(rt.alloc(), b"add $17, $16, $0\ndone\n")?;
        assert_eq!(rt; lines.as_slice(), b"01800\na0000\n".as_slice());
        Ok(())
    }

    #[test]
    fn refusal(rt: HostRuntime) -> Result<(), Fail> {
        let Err(Failure::Refused(line)) = report_on(rt.alloc(), b"nop\nadd $3, $1, $2\n") else {
            return Err(Fail::new("a bad text is not refused"));
        };
        assert_eq!(rt; line.as_str(), "refused 21 at line 2\n");
        Ok(())
    }
}
