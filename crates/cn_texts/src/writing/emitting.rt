//! The loop that writes a text.

ghost use Rattle.std.specs.Prelude.{◌≡◌, ◌≤◌, length, take, OnOk, IfErr};
ghost use Rattle.std.specs.Io.KnownBytes.{Appends, Keeps};

use std::io::Write;

/// A text could not be written whole: a write failed or took nothing, or the flush at the end failed.
#[derive(Clone, Copy, Debug, PartialEq, Eq)]
pub struct EmitFault {
    /// How many bytes of the text were written; its whole length if the flush failed.
    pub written: u64,
}

/// Writes all bytes, with no flush. A write that fails, is interrupted or takes no byte ends it.
pub(crate) fn write_whole<W: Write>(writer: &mut W, bytes: &[u8]) -> Result<(), EmitFault>
    ensures all { OnOk result (Appends (W.contents writer.old) (W.contents writer.new) bytes.now) }
    ensures within { IfErr result (λ fault. fault.written ≤ length bytes.now) }
    ensures front { IfErr result (λ fault.
        Appends (W.contents writer.old) (W.contents writer.new) (take fault.written bytes.now)) }
{
    let mut written = 0;
    while written < bytes.len() {
        match writer.write(&bytes[written..]) {
            Ok(count) if count > 0 => written += count,
            _ => {
                return Err(EmitFault {
                    written: written as u64,
                });
            }
        }
    }
    Ok(())
}

/// Flushes once, after so many bytes were written.
pub(crate) fn flush_after<W: Write>(writer: &mut W, written: u64) -> Result<(), EmitFault>
    ensures keeps { Keeps (W.contents writer.old) (W.contents writer.new) }
    ensures at { IfErr result (λ fault. fault.written ≡ written) }
{
    match writer.flush() {
        Ok(()) => Ok(()),
        Err(_) => Err(EmitFault { written }),
    }
}

/// Writes the text and flushes once at the end.
///
/// # Errors
/// `EmitFault` if a write fails, is interrupted or takes no byte, which ends it: the bytes written until then are the
/// first of the text. A failed flush is reported with the whole length of the text.
pub fn emit<W: Write>(writer: &mut W, text: &[u8]) -> Result<(), EmitFault>
    ensures all { OnOk result (Appends (W.contents writer.old) (W.contents writer.new) text.now) }
    ensures within { IfErr result (λ fault. fault.written ≤ length text.now) }
    ensures front { IfErr result (λ fault.
        Appends (W.contents writer.old) (W.contents writer.new) (take fault.written text.now)) }
{
    write_whole(writer, text)?;
    flush_after(writer, text.len() as u64)
}
