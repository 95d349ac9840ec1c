//! The line buffer: one line of the input at a time, as bytes.

ghost use Rattle.std.specs.Prelude.{◌≤◌};

pub mod feed;

/// The bytes of a line so far, without its newline, and whether there were more than a line may have.
// Fixed memory with a length beside it, and no Vec: all of it is wiped after each line, and growing leaves no copy behind.
// No Model: its value would have to show the memory, the line in it and `over`, and so hide the length alone.
#[derive(Drop)]
pub struct Line {
    bytes: [u8; 8192],
    len: usize,
    over: bool,
    ghost within: { len ≤ 8191 },
}

/// What a byte made of the line.
#[derive(Clone, Copy, Debug, PartialEq, Eq)]
pub enum Took {
    /// The line goes on.
    More,
    /// The byte ended the line.
    Whole,
    /// The byte ended a line that is longer than a line may be.
    Long,
}
