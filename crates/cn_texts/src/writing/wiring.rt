//! The text of a wiring.

ghost use Rattle.std.specs.Prelude.{◌≡◌};
ghost use Rattle.cn_texts.specs.Writing.Pieces.{Puts, nothing_put};
ghost use Rattle.cn_texts.specs.Writing.Wiring.{wire_line, wire_lines, wiring_text};
ghost use Rattle.cn_texts.specs.Writing.Written.{First, HasWritten, written_by};

use crate::writing::emitting::EmitFault;
use crate::writing::line::{send_heading, send_line, send_numbered};
use crate::writing::pieces::Pieces;
use cn_tables::{Counting, End};
use std::io::Write;

/// Sends a line as `wire 0 balancer 0` or `wire 3 exit 0`.
#[tactic(auto, unfolding(crate::specs::Writing::Wiring::wire_line))]
fn send_wire<W: Write>(pieces: &mut Pieces, writer: &mut W, wire: u32, end: End)
    ensures { Puts W.contents writer.old writer.new pieces.old pieces.new (wire_line (wire, end)) }
{
    let wire = u64::from(wire);
    match end {
        End::Balancer(balancer) => {
            send_line(
                pieces,
                writer,
                "wire ",
                wire,
                " balancer ",
                u64::from(balancer),
            );
        }
        End::Exit(exit) => send_line(pieces, writer, "wire ", wire, " exit ", u64::from(exit)),
    }
}

/// Sends the line of each wire.
fn send_wires<W: Write>(pieces: &mut Pieces, writer: &mut W, network: &Counting)
    ensures { Puts W.contents writer.old writer.new pieces.old pieces.new (wire_lines network.now.table.ends) }
{
    let wires = network.entries() + 2 * network.balancers();
    for wire in 0..wires {
        send_wire(pieces, writer, wire, network.end(wire));
    }
}

/// Writes the text of a network's wiring in pieces, and flushes once at the end: its heading, a line for each wire with
/// the balancer or exit at which it ends, and how many wires there are. It takes no memory.
///
/// # Errors
/// `EmitFault` if a write fails, is interrupted or takes no byte: nothing is written after it, and the bytes written
/// until then are the first of the text. A failed flush is reported with the whole length of the text.
pub fn write_wiring<W: Write>(
    writer: &mut W,
    pieces: Pieces,
    network: &Counting,
) -> Result<(), EmitFault>
    requires { pieces ≡ nothing_put }
    ensures { let written = written_by (λ fault. First fault.written) result in
        HasWritten W.contents (λ text. text ≡ wiring_text network.now) written writer.old writer.new }
{
    let mut pieces = pieces;
    send_heading(&mut pieces, writer, network);
    send_wires(&mut pieces, writer, network);
    send_numbered(
        &mut pieces,
        writer,
        "end wires ",
        network.entries() + 2 * network.balancers(),
        "\n",
    );
    pieces.finish(writer)
}
