//! A stream that heeds no interrupt.

use std::io::{ErrorKind, Read, Result, Write};

/// After how many interrupts in a row a call is made for the last time: one in each nanosecond would take 584 years.
const MOST_INTERRUPTS: u64 = u64::MAX;

/// A stream of which a call that a signal interrupts is made again, as often as it is interrupted. To contracts it has
/// the bytes of the stream.
#[derive(Drop)]
pub struct Retried<S> {
    stream: S,
}

impl<S> Retried<S> {
    /// The stream, so that a call that a signal interrupts is made again.
    pub fn new(stream: S) -> Self {
        Retried { stream }
    }
}

impl<R: Read> Read for Retried<R> {
    ghost remaining = { λ retried. R.remaining retried.stream };

    fn read(&mut self, bytes: &mut [u8]) -> Result<usize> {
        for _ in 0..MOST_INTERRUPTS {
            match self.stream.read(bytes) {
                Err(error) if error.kind() == ErrorKind::Interrupted => {}
                done => return done,
            }
        }
        self.stream.read(bytes)
    }
}

impl<W: Write> Write for Retried<W> {
    ghost contents = { λ retried. W.contents retried.stream };

    fn write(&mut self, bytes: &[u8]) -> Result<usize> {
        for _ in 0..MOST_INTERRUPTS {
            match self.stream.write(bytes) {
                Err(error) if error.kind() == ErrorKind::Interrupted => {}
                done => return done,
            }
        }
        self.stream.write(bytes)
    }

    fn flush(&mut self) -> Result<()> {
        self.stream.flush()
    }
}
