// The bytes of a line, cut into tokens that borrow them.
ghost use Rattle.std.specs.Prelude.{◌≡◌, ◌≤◌, length, IfSome, take, drop};
ghost use Rattle.std.specs.List.{prefix_len};
ghost use Rattle.grammar.specs.Bytes.{class_of, goes_on};
ghost use Rattle.grammar.specs.Tokens.{line_of, Fronts, Stops};

// How many bytes a name may have.
const NAME_MAX: usize = 16;

// What a byte can be or begin.
#[derive(Clone, Copy, PartialEq, Eq, Debug)]
pub enum Class {
    Letter,
    Digit,
    Underscore,
    Dollar,
    Comma,
    Colon,
    Semicolon,
    Space,
    Other,
}

// What a run of bytes is made of: a name for it, and no closure, since contracts say by it where a run ends.
#[derive(Clone, Copy, PartialEq, Eq, Debug)]
pub enum Run {
    Spaces,
    Name,
    Digits,
    Line,
}

// A part of the text, with the number of its line.
#[derive(Clone, Copy, PartialEq, Eq, Debug)]
pub enum Token<'a> {
    Name { text: &'a [u8], line: u32 },
    Number { text: &'a [u8], line: u32 },
    Register { text: &'a [u8], line: u32 },
    Comma { line: u32 },
    Colon { line: u32 },
    End { line: u32 },
}

// The class of a byte.
impl From<u8> for Class {
    ghost from_gives = { λ b class. class ≡ class_of b };

    fn from(b: u8) -> Class {
        match b as char {
            'A'..='Z' | 'a'..='z' => Class::Letter,
            '0'..='9' => Class::Digit,
            '_' => Class::Underscore,
            '$' => Class::Dollar,
            ',' => Class::Comma,
            ':' => Class::Colon,
            ';' => Class::Semicolon,
            ' ' | '\t' => Class::Space,
            _ => Class::Other,
        }
    }
}

// Whether a run goes on with the byte.
fn goes_on(run: Run, b: u8) -> bool
    ensures { result ≡ goes_on run b }
{
    match run {
        Run::Spaces => Class::from(b) == Class::Space,
        Run::Name => matches!(
            Class::from(b),
            Class::Letter | Class::Digit | Class::Underscore
        ),
        Run::Digits => Class::from(b) == Class::Digit,
        Run::Line => b != b'\n',
    }
}

// How many bytes at the front belong to the run.
pub fn run_len(bytes: &[u8], run: Run) -> usize
    ensures value { result ≡ prefix_len (goes_on run) bytes.now }
    ensures within { result ≤ length bytes.now }
{
    bytes.iter().take_while(|b| goes_on(run, **b)).count()
}

// What is left of a line, with the line's number.
#[derive(Clone, Copy, PartialEq, Eq, Debug)]
pub struct Rest<'a> {
    pub bytes: &'a [u8],
    pub line: u32,
}

impl<'a> Rest<'a> {
    // The first `n` bytes, and what follows them.
    fn split_at(self, n: usize) -> (&'a [u8], Rest<'a>)
        requires { n ≤ length self.bytes.now }
        ensures text { result.0.now ≡ take n self.entry.bytes.now }
        ensures text_len { length result.0.now ≡ n }
        ensures rest { result.1.bytes.now ≡ drop n self.entry.bytes.now }
        ensures line { result.1.line ≡ self.entry.line }
    {
        let (text, bytes) = self.bytes.split_at(n);
        (text, Rest { bytes, ..self })
    }

    // The token that the first byte begins, and what follows it.
    fn front_token(self) -> Option<(Token<'a>, Rest<'a>)>
        requires { Stops Run.Spaces self.bytes.now }
        ensures fronts { Fronts self.entry.bytes.now result }
        ensures line { IfSome result (λ p. line_of p.0 ≡ self.entry.line) }
        ensures rest_line { IfSome result (λ p. p.1.line ≡ self.entry.line) }
    {
        let Rest { bytes, line } = self;
        let [first, behind @ ..] = bytes else {
            return Some((Token::End { line }, self));
        };
        match Class::from(*first) {
            Class::Letter => {
                let (text, rest) = self.split_at(run_len(bytes, Run::Name));
                if text.len() > NAME_MAX {
                    return None;
                }
                Some((Token::Name { text, line }, rest))
            }
            Class::Digit => {
                let (text, rest) = self.split_at(run_len(bytes, Run::Digits));
                Some((Token::Number { text, line }, rest))
            }
            Class::Dollar => {
                let (text, rest) = self.split_at(1 + run_len(behind, Run::Digits));
                Some((Token::Register { text, line }, rest))
            }
            Class::Comma => Some((Token::Comma { line }, self.split_at(1).1)),
            Class::Colon => Some((Token::Colon { line }, self.split_at(1).1)),
            Class::Semicolon => Some((Token::End { line }, self)),
            Class::Underscore | Class::Space | Class::Other => None,
        }
    }

    // The next token of a line and what follows it, or none where the line leaves the grammar.
    pub(crate) fn next_token(self) -> Option<(Token<'a>, Rest<'a>)>
        ensures fronts { Fronts self.entry.bytes.now result }
        ensures line { IfSome result (λ p. line_of p.0 ≡ self.entry.line) }
        ensures rest_line { IfSome result (λ p. p.1.line ≡ self.entry.line) }
    {
        let (_, rest) = self.split_at(run_len(self.bytes, Run::Spaces));
        rest.front_token()
    }
}
