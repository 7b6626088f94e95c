//! A network that is built, known by its kind and width.

ghost use Rattle.std.specs.Prelude.{◌≡◌, ◌↔◌, IfErr, IfOk, IsErrOf};
ghost use Rattle.cn_tables.specs.Widths.{IsWidth};
ghost use Rattle.cn_nets.specs.Net.{IsNetworkOf};

use cn_bitonic::bitonic;
use cn_periodic::periodic;
use cn_spec::limits::MOST_LEVEL;
use cn_tree::tree;
use cn_wiring::{BuildFault, Counting, Kind, is_width, width_of};
use std::alloc::Global;
use std::fmt;
use std::marker::Model;
use thiserror::Error;

/// A network that is built. To contracts it is its kind and width.
#[derive(Clone, Copy, Debug, PartialEq, Eq)]
pub struct Net {
    kind: Kind,
    width: u32,
}

impl Model for Net {
    ghost use Rattle.cn_nets.specs.Net.{Description};
    ghost use Rattle.cn_tables.specs.Widths.{IsWidth};

    ghost Value = { Description };

    ghost view = { λ net. record { kind = net.kind; width = net.width } };

    ghost invariant = { λ net. IsWidth net.width };

    ghost inverse = { λ net. record { kind = net.kind; width = net.width } };
}

/// The widths that are built, as a sentence names them.
pub struct Widths;

impl fmt::Display for Widths {
    fn fmt<W: fmt::Write>(&self, f: &mut fmt::Formatter<W>) -> fmt::Result {
        let least = width_of(1);
        write!(f, "{least}")?;
        for level in 2..MOST_LEVEL {
            let width = width_of(level);
            write!(f, ", {width}")?;
        }
        let most = width_of(MOST_LEVEL);
        write!(f, " or {most}")
    }
}

/// Why there is no such network.
#[derive(Clone, Copy, Debug, PartialEq, Eq, Error)]
pub enum NetFault {
    /// No network of this width is built.
    #[error("renamer: no such width; allowed: {}", Widths)]
    Width,
}

impl NetFault {
    /// The status with which the program ends: 2.
    pub fn status(&self) -> u8
        ensures { result ≡ 2 }
    {
        2
    }
}

impl Net {
    /// The network of this kind and width.
    ///
    /// # Errors
    /// `NetFault::Width` if [`is_width`] is false.
    pub fn new(kind: Kind, width: u32) -> Result<Net, NetFault>
        ensures ok { IfOk result (λ net. (net.kind ≡ kind) × (net.width ≡ width)) }
        ensures width { IsErrOf result NetFault.Width ↔ (¬ IsWidth width) }
    {
        if is_width(width) {
            Ok(Net { kind, width })
        } else {
            Err(NetFault::Width)
        }
    }

    /// The kind of the network.
    pub fn kind(&self) -> Kind
        ensures kind { result ≡ self.now.kind }
        ensures built { IsWidth self.now.width }
    {
        self.kind
    }

    /// The width of the network: how many exits it has.
    pub fn width(&self) -> u32
        ensures width { result ≡ self.now.width }
        ensures built { IsWidth self.now.width }
    {
        self.width
    }

    /// The network itself.
    ///
    /// # Errors
    /// `BuildFault::Memory` if it gets no memory.
    pub fn build(&self, alloc: Global) -> Result<Counting, BuildFault>
        ensures ok { IfOk result (IsNetworkOf self.now) }
        ensures memory { IfErr result (λ fault. fault ≡ BuildFault.Memory) }
    {
        match self.kind {
            Kind::Bitonic => bitonic(alloc, self.width),
            Kind::Periodic => periodic(alloc, self.width),
            Kind::Tree => tree(alloc, self.width),
        }
    }
}
