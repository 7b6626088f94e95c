//! A reader that tells how its reads went.

ghost use Rattle.std.specs.Prelude.{◌≡◌, Bool, is_err};
ghost use Rattle.std.specs.Io.{ReadsAtMost};
ghost use Rattle.std.specs.Io.KnownBytes.{ReadConsumes};

use std::io::{Read, Result};

/// A reader that tells whether its last read failed, which no clause of `csv` says of its errors, and how many bytes it
/// gave.
pub(crate) trait ReadTelling: Read {
    ghost failed: { Self → Bool };

    /// How many bytes it gave.
    fn given(&self) -> u64;

    /// Whether its last read failed.
    fn has_failed(&self) -> bool
        ensures { result ≡ failed self.now };
}

/// Another reader, whose text it reads as it is.
#[derive(Drop)]
pub(crate) struct Telling<R: Read + Drop> {
    reader: R,
    failed: bool,
    given: u64,
}

impl<R: Read + Drop> Telling<R> {
    /// The reader at the first byte of its text.
    pub(crate) fn new(reader: R) -> Self
        ensures { result.reader ≡ reader }
    {
        Telling {
            reader,
            failed: false,
            given: 0,
        }
    }
}

impl<R: Read + Drop> Read for Telling<R> {
    ghost remaining = { λ telling. R.remaining telling.reader };

    fn read(&mut self, bytes: &mut [u8]) -> Result<usize>
        ensures bound { ReadsAtMost result bytes.new }
        ensures bytes { ReadConsumes (R.remaining self.old.reader) (R.remaining self.new.reader) result bytes.new }
        ensures failed { self.new.failed ≡ is_err result }
    {
        self.failed = true;
        let count = self.reader.read(bytes)?;
        self.failed = false;
        self.given = self.given.saturating_add(count as u64);
        Ok(count)
    }
}

impl<R: Read + Drop> ReadTelling for Telling<R> {
    ghost failed = { λ telling. telling.failed };

    fn has_failed(&self) -> bool {
        self.failed
    }

    fn given(&self) -> u64 {
        self.given
    }
}
