//! All tokens of a wire, dealt to two others.

ghost use Rattle.std.specs.Prelude.{◌≡◌, ◌≢◌, ◌<◌, length};
ghost use Rattle.cn_yard.specs.Deals.{Deals, IsDealt, out_of};
ghost use Rattle.cn_yard.specs.Lists.{on};

use crate::yard::Yard;

/// The wire of an output, of two.
fn wire_of_output(output: u32, out0: u32, out1: u32) -> u32
    ensures { result ≡ out_of out0 out1 output }
{
    if output == 0 { out0 } else { out1 }
}

impl Yard {
    /// Moves the tokens of `wire`, first to last, to two other wires by turns: the first to `out0` if `output` is 0,
    /// and to `out1` if it is 1. Each is put last on its wire. The three wires differ, and are below [`Yard::wires`].
    /// It takes no memory.
    pub fn deal(&mut self, wire: u32, output: u32, out0: u32, out1: u32)
        requires wires { (wire < length self.old.lists) × (out0 < length self.old.lists)
            × (out1 < length self.old.lists) }
        requires distinct { (wire ≢ out0) × (wire ≢ out1) × (out0 ≢ out1) }
        requires output { output < 2 }
        ensures dealt { IsDealt wire output out0 out1 self.old self.new }
        ensures moves { Deals (out_of out0 out1) output (on self.old.lists wire) self.old self.new }
    {
        let mut next = output;
        self.yard_laws();
        while let Some(token) = self.first(wire) {
            self.move_to(token, wire_of_output(next, out0, out1));
            self.yard_laws();
            next = 1 - next;
        }
    }
}
