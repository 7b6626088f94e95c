//! The laws of counting networks. Each function does nothing: its contract is the law, and a caller opens it by a call.

ghost use Rattle.std.specs.Prelude.{◌≡◌, ℕ, List};
ghost use Rattle.cn_tables.specs.Levels.{CountsPaths, IsLevel};
ghost use Rattle.cn_wiring.specs.Made.{IsTableOf};
ghost use Rattle.cn_tables.specs.Network.{IsNetwork, Network};
ghost use Rattle.cn_tables.specs.Plan.{Plan};
ghost use Rattle.cn_tables.specs.Table.{IsWellFormed, Table};

/// Each wire of a counting network has one level: 0 for an entry, one more than the inputs of its balancer for an
/// output, and the depth of the network for the wire of each exit. Each path to a wire passes as many balancers as its
/// level.
pub fn wires_have_levels()
    ensures { (network : Network) → IsNetwork network
        → (level : ℕ → ℕ) × IsLevel network.table network.depth level × CountsPaths network.table level }
{}

/// A plan, and wires that end at its exits in order, have one table: two tables that are made alike are the same.
pub fn tables_are_unique()
    ensures { (t s : Table) (made : Plan × List ℕ) → IsWellFormed t → IsWellFormed s
        → IsTableOf t made → IsTableOf s made → t ≡ s }
{}
