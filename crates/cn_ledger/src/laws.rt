//! The laws of ledgers. Each function does nothing: its contract is the law, and a caller opens it by a call.

ghost use Rattle.std.specs.Prelude.{◌≡◌, ℕ, ◌+◌, ◌<◌, ◌≤◌, List, map};
ghost use Rattle.cn_spec.specs.Step.{IsEachBelow};
ghost use Rattle.cn_tables.specs.Network.{Network, IsNetwork};
ghost use Rattle.cn_tables.specs.Table.{Table};
ghost use Rattle.cn_tables.specs.declared.end.End.TheVariants.{Balancer, Exit};
ghost use Rattle.cn_ledger.specs.Events.{Enters, Passes, Leaves, one_at};
ghost use Rattle.cn_ledger.specs.Grants.{Grant, ListsGrants};
ghost use Rattle.cn_ledger.specs.Between.{GrantsBetween};
ghost use Rattle.cn_ledger.specs.Gaps.{IsNearShares, IsSmooth, names_missing};
ghost use Rattle.cn_ledger.specs.Laws.{AllSound, GrantsOnce, HasFewCounts, KeepsSound, NamesDiffer, NobodyIsLost, StandsAt, StoodThere, all_inside};
ghost use Rattle.cn_ledger.specs.Ledger.{Ledger, IsSound, IsQuiescent, IsBounded, IsTight, all_entered, empty_ledger};
ghost use Rattle.cn_ledger.specs.WorkedNetworks.{two_wide};

/// In a sound ledger no count is more than its share of what entered, and each name is below the number that entered.
#[tactic(auto, using(crate::proofs::Bound::bounded))]
pub fn sound_ledgers_are_bounded()
    ensures { AllSound IsBounded }
{}

/// In a sound ledger each count, of a balancer or an exit, is at most what entered.
#[tactic(auto, using(crate::proofs::Bound::count_laws))]
pub fn counts_are_few()
    ensures { AllSound HasFewCounts }
{}

/// In a sound ledger those that left and those that stand on wires are all that entered.
#[tactic(auto, using(crate::proofs::Bound::count_laws))]
pub fn nobody_is_lost()
    ensures { AllSound NobodyIsLost }
{}

/// In a sound ledger, so at each moment, as many of the names below the number that entered are not given yet as
/// clients are inside. Each exit's count is its share of what entered, or less by no more than are inside; and the
/// counts of any two exits differ by at most one more than are inside.
#[tactic(auto, using(crate::proofs::Gaps::gap_laws))]
pub fn as_many_names_are_missing_as_are_inside()
    ensures names { AllSound (λ table ledger. names_missing table ledger ≡ all_inside table ledger) }
    ensures counts { AllSound IsNearShares }
    ensures smooth { AllSound (λ table ledger. IsSmooth (all_inside table ledger + 1) table ledger) }
{}

/// From one tight ledger to a later one, in which no grant of it is lost, the names that are granted are those from the
/// number that had entered to one less than the number that has entered now, each once.
#[tactic(auto, using(crate::proofs::Listed::between))]
pub fn tight_ledgers_grant_what_entered_between()
    ensures { (table : Table) (old new : Ledger) → IsTight table old → IsTight table new
        → all_entered table old ≤ all_entered table new
        → ((client exit visit name : ℕ)
        → old.granted client exit visit name ≤ new.granted client exit visit name)
        → GrantsBetween table old new }
{}

/// In a sound ledger two grants of one name are one grant, and it was made once.
#[tactic(auto, using(crate::proofs::Bound::name_laws))]
pub fn names_differ()
    ensures differ { AllSound (λ table ledger. NamesDiffer ledger) }
    ensures once { AllSound (λ table ledger. GrantsOnce ledger) }
{}

/// In a sound ledger with nobody inside, the counts are the shares of what entered, and the names are the numbers below
/// that, each granted once.
#[tactic(auto, using(crate::proofs::Bound::tight))]
pub fn quiet_ledgers_are_tight()
    ensures { AllSound (λ table ledger. IsQuiescent table ledger → IsTight table ledger) }
{}

/// From one tight ledger to a later one, a list of the grants made between has the names from 0 to one less than the
/// number of those that entered between, each once. A grant has the ledger's name minus the number that had entered
/// before. A client may be in the list more than once.
#[tactic(auto, using(crate::proofs::Listed::grant_laws))]
pub fn listed_grants_are_tight()
    ensures { (network : Network) (old new : Ledger) (grants : List Grant) (more : ℕ)
        → IsNetwork network → IsTight network.table old → IsTight network.table new
        → all_entered network.table new ≡ all_entered network.table old + more
        → ListsGrants (all_entered network.table old) old new grants
        → IsEachBelow more (map (λ grant. grant.name) grants) }
{}

/// Each event keeps a ledger sound.
pub fn events_keep_ledgers_sound()
    ensures enters { (client entry : ℕ)
        → KeepsSound (λ table old new. Enters table old new client entry) }
    ensures passes { (client wire balancer : ℕ)
        → KeepsSound (λ table old new. Passes table old new client wire balancer) }
    ensures leaves { (client wire exit : ℕ)
        → KeepsSound (λ table old new. Leaves table old new client wire exit) }
{}

/// Who passes a balancer or leaves stood on the wire from which it goes.
#[tactic(auto, using(crate::proofs::EventLemmas::stood_laws))]
pub fn who_goes_stood_there()
    ensures passes { (client wire balancer : ℕ)
        → StoodThere (λ table old new. Passes table old new client wire balancer) client wire }
    ensures leaves { (client wire exit : ℕ)
        → StoodThere (λ table old new. Leaves table old new client wire exit) client wire }
{}

/// On a sound ledger a client stands on a wire no more often than anybody does.
#[tactic(auto, using(crate::proofs::Happening::event_laws))]
pub fn who_stands_is_inside()
    ensures { AllSound (λ table ledger. (wire client : ℕ)
        → ledger.standing wire client ≤ ledger.on wire) }
{}

/// A client can come in by each entry; and on a sound ledger a client that stands on a wire can go by the wire's end.
#[tactic(auto, using(crate::proofs::Happening::event_laws))]
pub fn events_can_happen()
    ensures enters { (network : Network) (old : Ledger) (client entry : ℕ) → IsNetwork network
        → entry < network.table.entries
        → (new : Ledger) × Enters network.table old new client entry }
    ensures passes { AllSound (λ table old. (client wire balancer : ℕ)
        → StandsAt table old client wire (Balancer balancer)
        → (new : Ledger) × Passes table old new client wire balancer) }
    ensures leaves { AllSound (λ table old. (client wire exit : ℕ)
        → StandsAt table old client wire (Exit exit)
        → (new : Ledger) × Leaves table old new client wire exit) }
{}

/// If nobody has come, the ledger is sound.
#[tactic(auto, using(crate::proofs::EmptyLedger::sound_empty))]
pub fn empty_ledgers_are_sound()
    ensures { (table : Table) → IsSound table empty_ledger }
{}

/// Worked ledgers of a network with two entries, one balancer and two exits: client 7 comes in before client 9, which
/// passes and leaves first and so gets name 0; and ledgers that are not sound.
#[tactic(auto, using(crate::proofs::Happening::lost, crate::proofs::Happening::from_nowhere))]
pub fn worked_ledgers()
    ensures two_clients { (first second third fourth fifth last : Ledger)
        → Enters two_wide empty_ledger first 7 0 → Enters two_wide first second 9 1
        → Passes two_wide second third 9 1 0 → Passes two_wide third fourth 7 0 0
        → Leaves two_wide fourth fifth 9 2 0 → Leaves two_wide fifth last 7 3 1
        → IsQuiescent two_wide last × (all_entered two_wide last ≡ 2)
        × (last.count (Exit 0) ≡ 1) × (last.count (Exit 1) ≡ 1)
        × (last.granted 9 0 0 0 ≡ 1) × (last.granted 7 1 0 1 ≡ 1) }
    ensures no_lost_client { IsSound two_wide (record empty_ledger { entered = one_at 0 }) → ⊥ }
    ensures no_visit_without_client { (ledger : Ledger) → IsSound two_wide ledger
        → 1 ≤ ledger.count (Exit 0) → ((client : ℕ) → ledger.granted client 0 0 0 ≡ 0) → ⊥ }
    ensures no_name_twice { (ledger : Ledger) → IsSound two_wide ledger
        → 1 ≤ ledger.granted 7 0 0 0 → 1 ≤ ledger.granted 9 0 0 0 → ⊥ }
    ensures no_name_of_another_exit { (ledger : Ledger) → IsSound two_wide ledger
        → 1 ≤ ledger.granted 7 1 0 0 → ⊥ }
    ensures no_client_from_nowhere { (ledger : Ledger) → IsSound two_wide ledger
        → ledger.on 2 ≡ 0 → 1 ≤ ledger.standing 2 7 → ⊥ }
{}
