//! Laws of answers. Each function does nothing: its contract is the law, and a caller opens it by a call.

ghost use Rattle.std.specs.Prelude.{ℕ, ◌≤◌, List, Option};
ghost use Rattle.cn_spec.specs.declared.limits.TheConstants.{MOST_CARRIED};
ghost use Rattle.cn_tables.specs.Network.{Network, IsNetwork};
ghost use Rattle.cn_core.specs.History.{AreEpochs, IsHistory, carried_by};
ghost use Rattle.cn_core.specs.declared.event.Event.{Event};
ghost use Rattle.cn_ledger.specs.declared.command.Command.{Command};
ghost use Rattle.cn_epoch.specs.History.{earlier_in};
ghost use Rattle.cn_epoch.specs.Turns.{HasOneRecord, HaveOneAnswer};

/// A history has one record: it fixes each count, and the holder of each name. The earlier epochs whose counts are
/// carried, if there are any, were accepted, and have no more clients than may be carried.
pub fn a_history_has_one_record()
    ensures { (network : Network) (turns : ℕ) (history : List Event) (earlier : List (List Event))
        → IsNetwork network → AreEpochs network.table earlier
        → (carried_by network.table earlier).enters ≤ MOST_CARRIED
        → HasOneRecord network.table turns history (carried_by network.table earlier) }
{}

/// Want of memory aside, commands have one list of answers, if turns clear and if they carry. The history and the
/// earlier epochs were accepted.
pub fn commands_have_one_list_of_answers()
    ensures { (network : Network) (turns : ℕ) (history : List Event)
        (kept : Option (List (List Event))) (commands : List Command)
        → IsNetwork network → AreEpochs network.table (earlier_in kept)
        → IsHistory network.table history (carried_by network.table (earlier_in kept))
        → HaveOneAnswer network.table turns history kept commands }
{}
