//! A text on its way to a writer, in pieces of fixed size.

ghost use Rattle.std.specs.Prelude.{◌≡◌, ◌+◌, ◌^◌, ◌<◌, ◌≤◌, [], ◌++◌, List, IfOk, length, true, ℕ};
ghost use Rattle.cn_texts.specs.Writing.Pieces.{IsOnItsWay, Puts, nothing_put};
ghost use Rattle.cn_texts.specs.Writing.Written.{First, HasWritten, written_by};

use crate::writing::emitting::{EmitFault, flush_after, write_whole};
use std::alloc::{AllocError, Global};
use std::io::Write;
use std::marker::Model;

/// How many bytes are written at once.
const PIECE: usize = 65_536;

/// The bytes of a text that were put and are not yet written. All their memory is asked for at the start, so that no
/// growth can be refused once a part of the text is written. Once a write failed, nothing more is written: the fault is
/// reported at the end.
#[derive(Drop)]
pub struct Pieces {
    held: Vec<u8>,
    written: u64,
    failed: bool,
}

impl Model for Pieces {
    ghost use Rattle.std.specs.Prelude.{◌≤◌, length, vec_capacity};
    ghost use Rattle.cn_texts.specs.Writing.Pieces.{Pending};
    ghost use Rattle.cn_texts.specs.declared.writing.pieces.TheConstants.{PIECE};

    ghost Value = { Pending };

    ghost view = { λ p. record { held = p.held.items; written = p.written; failed = p.failed } };

    ghost invariant = { λ p. (length p.held.items ≤ PIECE) × (PIECE ≤ vec_capacity p.held) };
}

impl Pieces {
    /// Room for the pieces of one text, of which nothing is put yet.
    ///
    /// # Errors
    /// `AllocError` if it gets no memory.
    pub fn new(alloc: Global) -> Result<Self, AllocError>
        ensures { IfOk result (λ pieces. pieces ≡ nothing_put) }
    {
        Ok(Pieces {
            held: Vec::with_capacity(alloc, PIECE)?,
            written: 0,
            failed: false,
        })
    }

    /// Puts bytes, of which there is no more than a piece.
    #[inline(always)]
    pub fn put<W: Write>(&mut self, writer: &mut W, bytes: &[u8])
        requires { length bytes.now ≤ PIECE }
        ensures { Puts W.contents writer.old writer.new self.old self.new bytes.now }
    {
        self.make_room(writer, bytes.len());
        self.hold(bytes);
    }

    /// Makes room for so many bytes: if there is none, writes what is held.
    #[inline(always)]
    fn make_room<W: Write>(&mut self, writer: &mut W, count: usize)
        requires { count ≤ PIECE }
        ensures puts { Puts W.contents writer.old writer.new self.old self.new [] }
        ensures room { length self.new.held + count ≤ PIECE }
        ensures rests { length self.old.held + count ≤ PIECE
            → (self.new ≡ self.old) × (writer.new ≡ writer.old) }
    {
        if count > PIECE - self.held.len() {
            self.write_held(writer);
        }
    }

    /// Whether a write failed: then what follows of the text is not written, and need not be made.
    pub(crate) fn has_failed(&self) -> bool
        ensures { result ≡ self.now.failed }
    {
        self.failed
    }

    /// Holds bytes for which there is room.
    #[inline(always)]
    fn hold(&mut self, bytes: &[u8])
        requires { length self.old.held + length bytes.now ≤ PIECE }
        ensures held { self.new.held ≡ self.old.held ++ bytes.now }
        ensures written { self.new.written ≡ self.old.written }
        ensures failed { self.new.failed ≡ self.old.failed }
    {
        let Ok(()) = self.held.extend_from_slice(bytes) else {
            unreachable!()
        };
    }

    /// Writes what is held, unless a write failed before.
    #[cold]
    #[inline(never)]
    fn write_held<W: Write>(&mut self, writer: &mut W)
        ensures puts { Puts W.contents writer.old writer.new self.old self.new [] }
        ensures none { self.new.held ≡ [] }
    {
        if self.failed {
            return self.fail(0);
        }
        // The length of a text of 2^64 bytes could not be reported: it counts as one that cannot be written.
        let Some(written) = self.written.checked_add(self.held.len() as u64) else {
            return self.fail(0);
        };
        match write_whole(writer, &self.held) {
            Ok(()) => {
                self.written = written;
                self.held.clear();
            }
            Err(fault) => self.fail(fault.written),
        }
    }

    /// A write failed after so many bytes of those that are held.
    fn fail(&mut self, count: u64)
        requires { self.old.written + count < 2 ^ 64 }
        ensures { self.new ≡ record { held = []; written = self.old.written + count; failed = true } }
    {
        self.held.clear();
        self.written += count;
        self.failed = true;
    }

    /// Ends the text: writes what is held, and flushes once.
    pub fn finish<W: Write>(self, writer: &mut W) -> Result<(), EmitFault>
        ensures { (first : W) (text : List ℕ)
            → IsOnItsWay (W.contents first) (W.contents writer.old) self text []
            → let written = written_by (λ fault. First fault.written) result in
            HasWritten W.contents (λ t. t ≡ text) written first writer.new }
    {
        let mut pieces = self;
        pieces.write_held(writer);
        if pieces.failed {
            return Err(EmitFault {
                written: pieces.written,
            });
        }
        flush_after(writer, pieces.written)
    }
}
