// Where a text does not fit its format, and what was expected there.
ghost use Rattle.std.specs.Option.{option_map};
ghost use Rattle.text.specs.Faults.{fault_text};

use std::fmt;

#[derive(Clone, Copy, Debug, PartialEq, Eq)]
pub struct Fault<E> {
    pub line: usize,
    pub expected: E,
}

impl<E: fmt::Display> fmt::Display for Fault<E> {
    ghost output = { λ f. option_map (fault_text f.line) (E.output f.expected) };

    fn fmt<W: fmt::Write>(&self, f: &mut fmt::Formatter<W>) -> fmt::Result {
        let line = self.line;
        let expected = &self.expected;
        write!(f, "line {line}: expected {expected}")
    }
}
