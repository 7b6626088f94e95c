//! The laws of histories. Each function does nothing: its contract is the law, and a caller opens it by a call.

ghost use Rattle.std.specs.Prelude.{◌≡◌, ◌≤◌, List, ◌∷◌, []};
ghost use Rattle.cn_spec.specs.declared.limits.TheConstants.{MOST_CARRIED};
ghost use Rattle.cn_tables.specs.Network.{Network, IsNetwork};
ghost use Rattle.cn_ledger.specs.WorkedNetworks.{tree_of_four, two_wide};
ghost use Rattle.cn_core.specs.History.{AreEpochs, HasOneHolder, IsHistory, answers_to, carried_by, enters_of, inside_of};
ghost use Rattle.cn_core.specs.declared.event.Event.{Event};
ghost use Rattle.cn_core.specs.declared.event.Event.TheVariants.{Enter, Step};
ghost use Rattle.cn_ledger.specs.declared.reply.EnterFault.TheVariants.{AlreadyIn, NoSuchEntry};
ghost use Rattle.cn_ledger.specs.declared.moved.Moved.TheVariants.{On as Passed, Out};
ghost use Rattle.cn_ledger.specs.declared.reply.Reply.TheVariants.{Entered, EnterRefused, StepRefused, Stepped};
ghost use Rattle.cn_ledger.specs.declared.reply.StepFault.TheVariants.{HasName, Stranger};

/// After any history two clients that hold one name are one client. The earlier epochs, if there are any, were
/// accepted, and have no more clients than may be carried.
#[tactic(auto, using(crate::proofs::EarlierLemmas::holder_laws))]
pub fn a_name_has_one_holder()
    ensures { (network : Network) (history : List Event) (earlier : List (List Event))
        → IsNetwork network → AreEpochs network.table earlier
        → (carried_by network.table earlier).enters ≤ MOST_CARRIED
        → HasOneHolder network.table history (carried_by network.table earlier) }
{}

/// Worked answers: two clients on a balancer, of which the second overtakes the first; every refusal but those of a
/// full epoch and of want of memory; three clients on a counting tree, of which the last comes out first; and a client
/// that comes again after an epoch whose counts are carried. A list of events of which one is refused is no history,
/// and an epoch does not end with a client inside.
pub fn worked_answers()
    ensures two_clients { answers_to two_wide [] (carried_by two_wide [])
        (Enter 7 0 ∷ Enter 9 1 ∷ Step 9 ∷ Step 7 ∷ Step 9 ∷ Step 7 ∷ [])
        ≡ Entered ∷ Entered ∷ Stepped (Passed 0 0 2) ∷ Stepped (Passed 0 1 3)
        ∷ Stepped (Out 0 0 0) ∷ Stepped (Out 1 0 1) ∷ [] }
    ensures refusals { answers_to two_wide [] (carried_by two_wide [])
        (Step 5 ∷ Enter 7 0 ∷ Enter 7 1 ∷ Enter 7 2 ∷ Step 7 ∷ Step 7 ∷ Step 7 ∷ Enter 7 0 ∷ [])
        ≡ StepRefused Stranger ∷ Entered ∷ EnterRefused AlreadyIn ∷ EnterRefused NoSuchEntry
        ∷ Stepped (Passed 0 0 2) ∷ Stepped (Out 0 0 0)
        ∷ StepRefused (HasName 0) ∷ EnterRefused AlreadyIn ∷ [] }
    ensures tree_overtaking { answers_to tree_of_four [] (carried_by tree_of_four [])
        (Enter 10 0 ∷ Enter 20 0 ∷ Enter 30 0 ∷ Step 10 ∷ Step 20 ∷ Step 30
        ∷ Step 30 ∷ Step 30 ∷ Step 10 ∷ Step 10 ∷ Step 20 ∷ Step 20 ∷ [])
        ≡ Entered ∷ Entered ∷ Entered
        ∷ Stepped (Passed 0 0 1) ∷ Stepped (Passed 0 1 2) ∷ Stepped (Passed 0 2 1)
        ∷ Stepped (Passed 1 0 3) ∷ Stepped (Out 0 0 0)
        ∷ Stepped (Passed 1 1 4) ∷ Stepped (Out 2 0 2)
        ∷ Stepped (Passed 2 0 5) ∷ Stepped (Out 1 0 1) ∷ [] }
    ensures carried_twice { answers_to two_wide []
        (carried_by two_wide ((Step 7 ∷ Step 7 ∷ Enter 7 0 ∷ []) ∷ []))
        (Step 7 ∷ Enter 7 0 ∷ Step 7 ∷ Step 7 ∷ [])
        ≡ StepRefused Stranger ∷ Entered
        ∷ Stepped (Passed 0 1 3) ∷ Stepped (Out 1 0 0) ∷ [] }
    ensures two_entered { enters_of (Step 9 ∷ Enter 9 1 ∷ Enter 7 0 ∷ []) ≡ 2 }
    ensures one_is_left_inside { inside_of two_wide
        (Step 9 ∷ Step 9 ∷ Enter 9 1 ∷ Enter 7 0 ∷ []) (carried_by two_wide []) ≡ 1 }
    ensures no_step_of_a_stranger { IsHistory two_wide
        (Step 7 ∷ Enter 9 1 ∷ []) (carried_by two_wide []) → ⊥ }
    ensures no_step_of_a_named_client { IsHistory two_wide
        (Step 7 ∷ Step 7 ∷ Step 7 ∷ Enter 7 0 ∷ []) (carried_by two_wide []) → ⊥ }
    ensures no_end_with_one_inside { AreEpochs two_wide ((Step 7 ∷ Enter 7 0 ∷ []) ∷ []) → ⊥ }
    ensures no_second_enter { IsHistory two_wide
        (Enter 7 1 ∷ Enter 7 0 ∷ []) (carried_by two_wide []) → ⊥ }
{}
