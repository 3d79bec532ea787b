//! Streams that don't wait longer than a connection may last.

use std::io::{self, ErrorKind, Read, Write};
use std::net::TcpStream;
use std::rt::Clock;
use std::time::{Duration, Instant};

/// A stream whose reads and writes wait until the end of the connection's time, and then fail.
#[derive(Drop)]
pub struct Timed<'a, C: Clock> {
    clock: &'a C,
    stream: &'a TcpStream,
    end: Instant,
    /// The longest time that one read or write waits.
    longest: Duration,
}

/// Returns the end of the time of a connection that begins now.
pub fn end_after<C: Clock>(clock: &C, limit: Duration) -> io::Result<Instant> {
    match Instant::now(clock)?.checked_add(limit) {
        Some(end) => Ok(end),
        None => Err(io::Error::from(ErrorKind::InvalidInput)),
    }
}

/// Returns the time that is left until `end`, or an error if there is none.
pub fn left_until<C: Clock>(clock: &C, end: Instant) -> io::Result<Duration> {
    let left = end.saturating_duration_since(Instant::now(clock)?);
    if left.is_zero() {
        return Err(io::Error::from(ErrorKind::TimedOut));
    }
    Ok(left)
}

impl<'a, C: Clock> Timed<'a, C> {
    /// Returns a stream that lasts until the end of its connection, and each of whose calls waits at most `longest`.
    pub fn new(
        clock: &'a C,
        stream: &'a TcpStream,
        end: Instant,
        longest: Duration,
    ) -> Timed<'a, C> {
        Timed {
            clock,
            stream,
            end,
            longest,
        }
    }

    /// Returns how long the next call may wait.
    fn wait(&self) -> io::Result<Duration> {
        Ok(left_until(self.clock, self.end)?.min(self.longest))
    }
}

impl<'a, C: Clock> Read for Timed<'a, C> {
    fn read(&mut self, buf: &mut [u8]) -> io::Result<usize> {
        self.stream.set_read_timeout(Some(self.wait()?))?;
        let mut stream = self.stream;
        stream.read(buf)
    }
}

impl<'a, C: Clock> Write for Timed<'a, C> {
    fn write(&mut self, buf: &[u8]) -> io::Result<usize> {
        self.stream.set_write_timeout(Some(self.wait()?))?;
        let mut stream = self.stream;
        stream.write(buf)
    }

    fn flush(&mut self) -> io::Result<()> {
        Ok(())
    }
}
