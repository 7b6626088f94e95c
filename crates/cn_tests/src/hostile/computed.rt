//! A reader that computes its bytes.

ghost use Rattle.std.specs.Prelude.{◌≤◌, length};

use std::io;

/// Gives a header, then records of one form, and then a last text, and keeps no more of them than its place.
#[derive(Drop)]
pub(crate) struct Computed {
    header: &'static [u8],
    /// A record and its line end. `A` to `G` stand for the digits of the record's number, from 0 on, the last digit
    /// first; `Y` and `Z` for the two of its epoch's, from 1 on; 262,144 records make an epoch.
    form: &'static [u8],
    records: u64,
    last: &'static [u8],
    record: u64,
    byte: usize,
}

/// The byte that a letter of a form stands for.
fn byte_of(letter: u8, record: u64) -> u8 {
    let epoch = record / 262_144 + 1;
    let number = match letter {
        b'A' => record,
        b'B' => record / 10,
        b'C' => record / 100,
        b'D' => record / 1_000,
        b'E' => record / 10_000,
        b'F' => record / 100_000,
        b'G' => record / 1_000_000,
        b'Y' => epoch / 10,
        b'Z' => epoch,
        _ => return letter,
    };
    b'0' + (number % 10) as u8
}

impl Computed {
    pub(crate) fn new(
        header: &'static [u8],
        form: &'static [u8],
        records: u64,
        last: &'static [u8],
    ) -> Computed {
        Computed {
            header,
            form,
            records,
            last,
            record: 0,
            byte: 0,
        }
    }

    /// The next byte of the records, while there are any.
    fn next_byte(&mut self) -> Option<u8> {
        if self.record >= self.records {
            return None;
        }
        let letter = *self.form.get(self.byte)?;
        let next = byte_of(letter, self.record);
        if self.byte + 1 < self.form.len() {
            self.byte += 1;
        } else {
            self.byte = 0;
            self.record += 1;
        }
        Some(next)
    }

    /// Fills a buffer with bytes of the records: how many there are.
    fn fill(&mut self, buffer: &mut [u8]) -> usize
        ensures { result ≤ length buffer.new }
    {
        for count in 0..buffer.len() {
            let Some(next) = self.next_byte() else {
                return count;
            };
            buffer[count] = next;
        }
        buffer.len()
    }
}

impl io::Read for Computed {
    fn read(&mut self, buffer: &mut [u8]) -> io::Result<usize> {
        if !self.header.is_empty() {
            return self.header.read(buffer);
        }
        match self.fill(buffer) {
            0 => self.last.read(buffer),
            count => Ok(count),
        }
    }
}
