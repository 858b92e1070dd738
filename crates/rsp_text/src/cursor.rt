// A place in a text.
ghost use Rattle.std.specs.Prelude.{◌≡◌, ◌+◌, ◌<◌, slice_get, length};

/// A text, and the place of the byte in it that is next.
#[derive(Clone, Copy)]
pub struct Cursor<'a> {
    pub bytes: &'a [u8],
    pub at: usize,
}

impl<'a> Cursor<'a> {
    /// The next byte; None exactly where no byte is left.
    pub fn peek(&self) -> Option<u8>
        ensures { result ≡ slice_get self.now.bytes.now self.now.at }
    {
        self.bytes.get(self.at).copied()
    }

    /// Passes the next byte.
    pub fn step(&mut self)
        requires { self.old.at < length self.old.bytes.now }
        ensures at { self.new.at ≡ self.old.at + 1 }
        ensures bytes { self.new.bytes ≡ self.old.bytes }
    {
        self.at += 1;
    }
}
