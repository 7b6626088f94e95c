//! Writers and readers whose room is short, or that fail.

use std::alloc::Global;
use std::io;

/// What a writer does once it has its fill.
#[derive(Clone, Copy, Debug, PartialEq, Eq)]
pub(crate) enum Then {
    Fails(io::ErrorKind),
    /// It fails once, and would then take the rest.
    FailsOnce,
    TakesNothing,
}

/// Takes at most three bytes at a time and `room` bytes in all, and counts its flushes.
#[derive(Drop)]
pub(crate) struct Narrow {
    pub(crate) taken: Vec<u8>,
    room: usize,
    then: Then,
    pub(crate) flushes: usize,
    flush_fails: bool,
}

impl Narrow {
    pub(crate) fn new(alloc: Global, room: usize, then: Then) -> Narrow {
        Narrow {
            taken: Vec::new(alloc),
            room,
            then,
            flushes: 0,
            flush_fails: false,
        }
    }

    /// A writer that takes everything, and whose flush fails.
    pub(crate) fn unflushed(alloc: Global) -> Narrow {
        Narrow {
            taken: Vec::new(alloc),
            room: usize::MAX,
            then: Then::TakesNothing,
            flushes: 0,
            flush_fails: true,
        }
    }
}

impl io::Write for Narrow {
    fn write(&mut self, bytes: &[u8]) -> io::Result<usize> {
        let count = bytes.len().min(3).min(self.room);
        if count == 0 {
            return match self.then {
                Then::Fails(kind) => Err(io::Error::from(kind)),
                Then::FailsOnce => {
                    self.room = usize::MAX;
                    Err(io::Error::from(io::ErrorKind::TimedOut))
                }
                Then::TakesNothing => Ok(0),
            };
        }
        self.taken.extend_from_slice(&bytes[..count])?;
        self.room -= count;
        Ok(count)
    }

    fn flush(&mut self) -> io::Result<()> {
        self.flushes = self.flushes.saturating_add(1);
        if self.flush_fails {
            return Err(io::Error::from(io::ErrorKind::BrokenPipe));
        }
        Ok(())
    }
}

/// Gives what another reader gives, and then fails.
#[derive(Drop)]
pub(crate) struct Broken<I> {
    pub(crate) left: I,
}

impl<I: io::Read> io::Read for Broken<I> {
    fn read(&mut self, buffer: &mut [u8]) -> io::Result<usize> {
        match self.left.read(buffer)? {
            0 => Err(io::Error::from(io::ErrorKind::ConnectionReset)),
            count => Ok(count),
        }
    }
}
