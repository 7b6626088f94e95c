//! How floors and their words hold a network.

ghost use Rattle.std.specs.Arc.{arc_value};
ghost use Rattle.std.specs.Prelude.{◌≡◌, IfOk};

use cn_tables::Counting;
use std::alloc::{AllocError, Global};
use std::marker::Model;
use std::sync::Arc;

/// The two ways.
#[derive(Drop)]
pub(super) enum Holding<'a> {
    /// For as long as its owner lends it.
    Borrowed(&'a Counting),
    /// Together with others, for as long as one of them holds it.
    Shared(Arc<Counting, Global>),
}

/// A network that is borrowed, or shared by count.
pub(super) struct NetworkRef<'a> {
    holding: Holding<'a>,
}

impl<'a> Model for NetworkRef<'a> {
    ghost use Rattle.cn_floor.specs.InsideNetworkRef.{network_of};
    ghost use Rattle.cn_tables.specs.Network.{Network};

    ghost Value = { Network };

    ghost view = { network_of };
}

impl<'a> NetworkRef<'a> {
    /// The network, borrowed.
    pub(super) fn borrowed(network: &'a Counting) -> NetworkRef<'a>
        ensures { result ≡ network.now }
    {
        NetworkRef {
            holding: Holding::Borrowed(network),
        }
    }

    /// One more holder of a shared network.
    ///
    /// # Errors
    /// `AllocError` if its holders cannot be counted.
    pub(super) fn shared(network: &Arc<Counting, Global>) -> Result<NetworkRef<'a>, AllocError>
        ensures { IfOk result (λ held. held ≡ arc_value network.now) }
    {
        Ok(NetworkRef {
            holding: Holding::Shared(Arc::try_clone(network)?),
        })
    }

    /// The network.
    pub(super) fn get(&self) -> &Counting
        ensures { result.now ≡ self.now }
    {
        match &self.holding {
            Holding::Borrowed(network) => network,
            Holding::Shared(network) => &**network,
        }
    }

    /// The same network once more, held in the same way.
    ///
    /// # Errors
    /// `AllocError` if its holders cannot be counted.
    pub(super) fn share(&self) -> Result<NetworkRef<'a>, AllocError>
        ensures { IfOk result (λ held. held ≡ self.now) }
    {
        match &self.holding {
            Holding::Borrowed(network) => Ok(NetworkRef::borrowed(network)),
            Holding::Shared(network) => NetworkRef::shared(network),
        }
    }
}

// By hand: a derived drop of a type with a lifetime is walked field by field wherever a value is dropped, and this one
// is a call there.
impl Drop for NetworkRef<'_> {
    fn drop(self) {
        let NetworkRef { holding: _holding } = self;
    }
}
