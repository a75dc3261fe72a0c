// A place between two lines of a text.
ghost use Rattle.std.specs.Prelude.{◌+◌, ◌^◌, ◌<◌, length};

// What is left of a text, and the number of its first line. The number of each line that is left fits a `usize`, and so does that of
// the line after the last.
#[derive(Clone, Copy)]
pub struct Cursor<'a> {
    pub(crate) rest: &'a [u8],
    pub(crate) line: usize,
    ghost counted: { line + length rest.now < 2 ^ 64 },
}
