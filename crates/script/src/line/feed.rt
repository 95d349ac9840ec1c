//! Filling, reading and clearing a line.

ghost use Rattle.std.specs.Prelude.{◌≡◌, true, false, [], ◌∷◌, ◌++◌, replicate, if◌then◌else◌};
ghost use Rattle.script.specs.Line.{begun, bytes_after, full, held, over_after, took};

use super::{Line, Took};

/// The most bytes that a line has before its newline.
const MOST: usize = 8191;

impl Line {
    /// A line with nothing in it.
    pub fn new() -> Line
        ensures held { held result ≡ [] }
        ensures over { result.over ≡ false }
    {
        Line {
            bytes: [0; 8192],
            len: 0,
            over: false,
        }
    }

    /// Takes one byte of the input.
    pub fn take(&mut self, byte: u8) -> Took
        ensures held { held self.new ≡ bytes_after self.old byte }
        ensures over { self.new.over ≡ over_after self.old byte }
        ensures value { result ≡ took self.old byte }
    {
        if byte == b'\n' {
            return if self.over { Took::Long } else { Took::Whole };
        }
        self.hold(byte);
        Took::More
    }

    // Puts a byte that is no newline at the line's end, if there is room.
    fn hold(&mut self, byte: u8)
        ensures held { held self.new ≡ (if full self.old then held self.old else held self.old ++ byte ∷ []) }
        ensures over { self.new.over ≡ (if full self.old then true else self.old.over) }
    {
        if self.len == MOST {
            self.over = true;
            return;
        }
        self.bytes[self.len] = byte;
        self.len += 1;
    }

    /// The line's bytes, without its newline.
    pub fn bytes(&self) -> &[u8]
        ensures { result.now ≡ held self.now }
    {
        &self.bytes[..self.len]
    }

    /// Is there a byte since the last line's end?
    pub fn is_begun(&self) -> bool
        ensures { result ≡ begun self.now }
    {
        self.len > 0
    }

    /// Begins a new line, and overwrites the old one with zeros.
    pub fn clear(&mut self)
        ensures held { held self.new ≡ [] }
        ensures over { self.new.over ≡ false }
        ensures zeros { self.new.bytes ≡ replicate 8192 0 }
    {
        self.bytes = [0; 8192];
        self.len = 0;
        self.over = false;
    }
}
