//! The laws of histories on counting networks. Each function does nothing: its contract is the law, and a caller opens
//! it by a call.

ghost use Rattle.std.specs.Prelude.{◌≤◌};
ghost use Rattle.cn_tables.specs.Network.{IsNetwork, Network};
ghost use Rattle.cn_ledger.specs.Ledger.{IsQuiescent, IsSound, Ledger};
ghost use Rattle.cn_floor.specs.Consistent.{IsQuiescentlyConsistent, KeepsRealTimeOrder};

/// A counting network is quiescently consistent: from one moment with nobody inside to a later one, with m clients
/// entered before and n since, the names that are granted are m to n - 1, each once.
pub fn counting_networks_are_quiescently_consistent()
    ensures { (network : Network) (begin : Ledger) → IsNetwork network → IsSound network.table begin
        → IsQuiescentlyConsistent network.table begin }
{}

/// No counting network with two exits or more is linearizable: from any moment with nobody inside there is a history on
/// which a client leaves with a name, and another, which comes in only then, gets a lower one.
pub fn counting_networks_are_not_linearizable()
    ensures { (network : Network) (begin : Ledger) → IsNetwork network → 2 ≤ network.table.width
        → IsSound network.table begin → IsQuiescent network.table begin
        → KeepsRealTimeOrder network.table begin → ⊥ }
{}
