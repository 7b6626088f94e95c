//! The law of networks by kind and width. The function does nothing: its contract is the law, and a caller opens it by
//! a call.

ghost use Rattle.std.specs.Prelude.{◌≡◌};
ghost use Rattle.cn_tables.specs.Network.{Network};
ghost use Rattle.cn_nets.specs.Net.{Description, IsNetworkOf};

/// A kind and a width have one network.
pub fn networks_are_unique()
    ensures { (net : Description) (network other : Network)
        → IsNetworkOf net network → IsNetworkOf net other → network ≡ other }
{}
