//! The streams of connections.

ghost use Rattle.std.specs.Prelude.{◌≡◌, ℕ, List};
ghost use Rattle.std.specs.Io.{ReadsAtMost, WritesAtMost};
ghost use Rattle.am_reactor.specs.Streams.{Arrival, after_read, after_write};

use std::io::{self, ErrorKind};

/// A stream over which bytes come and go.
pub trait Stream {
    /// The bytes that came so far, and whether a read has met the end behind them.
    ghost arrived: { Self → Arrival };

    /// The bytes that went out so far.
    ghost gone: { Self → List ℕ };

    /// Returns whether the stream is connected, as far as that is known.
    ///
    /// # Errors
    ///
    /// The reason why it will never be.
    fn stands(&self) -> Result<bool, ErrorKind>;

    /// Reads like [`Read::read`](std::io::Read::read).
    fn read(&mut self, piece: &mut [u8]) -> io::Result<usize>
        ensures bound { ReadsAtMost result piece.new }
        ensures came { arrived self.new ≡ after_read (arrived self.old) result piece.new }
        ensures kept { gone self.new ≡ gone self.old };

    /// Writes like [`Write::write`](std::io::Write::write).
    fn write(&mut self, bytes: &[u8]) -> io::Result<usize>
        ensures bound { WritesAtMost result bytes.now }
        ensures went { gone self.new ≡ after_write (gone self.old) result bytes.now }
        ensures kept { arrived self.new ≡ arrived self.old };

    /// Returns whether the other end is known to send nothing more, after all was read that it sent.
    fn has_left(&self) -> bool;

    /// Tells the other end that nothing more is written. Returns whether that was possible.
    fn finish(&mut self) -> bool
        ensures arrived { arrived self.new ≡ arrived self.old }
        ensures gone { gone self.new ≡ gone self.old };
}
