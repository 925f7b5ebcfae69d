// The lines of a text, one after the other.
ghost use Rattle.std.specs.Prelude.{◌≡◌, ◌+◌, ◌-◌, ◌≤◌, length};
ghost use Rattle.std.specs.Iterator.{at_most};
ghost use Rattle.text.specs.Lines.{NextLine};
ghost use Rattle.text.specs.Outcome.{LineAt};

use grammar::{Run, run_len};

// A line of a text: its number, counted from 1, the place where it begins, and its bytes.
#[derive(Clone, Copy)]
pub(crate) struct TextLine<'a> {
    pub(crate) number: u32,
    pub(crate) place: usize,
    pub(crate) bytes: &'a [u8],
}

// The lines of a text that are left: where the next one begins, and how many come before it.
#[derive(Drop)]
pub(crate) struct Lines<'a> {
    text: &'a [u8],
    at: usize,
    count: u32,
    ghost short: { length text.now ≤ 65535 },
    ghost few: { count ≤ at },
    ghost inside: { at ≤ length text.now + 1 },
}

// The line that begins at a place of the text.
fn line_at<'a>(text: &'a [u8], at: usize) -> &'a [u8]
    requires { at ≤ length text.now }
    ensures { LineAt text.now at result.now }
{
    let rest = &text[at..];
    let n = run_len(rest, Run::Line);
    &rest[..n]
}

impl<'a> Lines<'a> {
    // All lines of a text.
    pub(crate) fn of(text: &'a [u8]) -> Lines<'a>
        requires { length text.now ≤ 65535 }
        ensures text { result.text.now ≡ text.now }
        ensures at { result.at ≡ 0 }
        ensures count { result.count ≡ 0 }
    {
        Lines {
            text,
            at: 0,
            count: 0,
        }
    }
}

impl<'a> Iterator for Lines<'a> {
    type Item = TextLine<'a>;

    ghost next_gives = { λ s r t. NextLine s.text.now s.at s.count r t.text.now t.at t.count };

    ghost remaining = { λ s. at_most (length s.text.now + 1 - s.at) };

    fn next(&mut self) -> Option<TextLine<'a>> {
        if self.at > self.text.len() {
            return None;
        }
        let place = self.at;
        let bytes = line_at(self.text, place);
        self.at = place + bytes.len() + 1;
        self.count += 1;
        Some(TextLine {
            number: self.count,
            place,
            bytes,
        })
    }
}
