// Steps through the lines of a text that mean something.
ghost use Rattle.std.specs.Prelude.{◌≡◌, ◌<◌, [], ◌∷◌, length, MatchOption};
ghost use Rattle.text.specs.Cursors.{left, Nexts};
ghost use Rattle.text.specs.Lines.{meaningful, passed_over};
ghost use Rattle.text.specs.Text.{lines, words};

use crate::cursor::Cursor;
use crate::words::split_word;

// A line that means something.
#[derive(Clone, Copy, Debug, PartialEq, Eq)]
pub struct Line<'a> {
    pub number: usize,
    pub text: &'a [u8],
}

// No line is left: the number that one more line would have.
#[derive(Clone, Copy, Debug, PartialEq, Eq)]
pub struct End {
    pub number: usize,
}

impl<'a> Cursor<'a> {
    // The place before the first line, which has the number 1.
    pub fn start(text: &'a [u8]) -> Cursor<'a>
        ensures { left result ≡ meaningful 1 (lines text.now) }
    {
        Cursor {
            rest: text,
            line: 1,
        }
    }

    // Goes past the next line that means something, or to the end.
    pub fn next_line(&mut self) -> Result<Line<'a>, End>
        ensures { Nexts (left self.old) result (left self.new) }
    {
        while let Some((text, rest)) = split_line(self.rest) {
            let number = self.line;
            *self = Cursor {
                rest,
                line: number + 1,
            };
            if !is_passed_over(text) {
                return Ok(Line { number, text });
            }
        }
        Err(End { number: self.line })
    }
}

// The first line and what follows its line feed.
fn split_line(text: &[u8]) -> Option<(&[u8], &[u8])>
    ensures { MatchOption result (text.now ≡ []) (λ p. (lines text.now ≡ p.0.now ∷ lines p.1.now) × (length p.1.now < length text.now)) }
{
    if text.is_empty() {
        return None;
    }
    match text.iter().position(|byte| *byte == b'\n') {
        Some(end) => Some((&text[..end], &text[end + 1..])),
        // the last line may lack its line feed
        None => Some(text.split_at(text.len())),
    }
}

// Whether a line has no words or is a comment.
fn is_passed_over(text: &[u8]) -> bool
    ensures { result ≡ passed_over (words text.now) }
{
    match split_word(text) {
        None => true,
        Some((word, _)) => word.starts_with(b"#"),
    }
}
