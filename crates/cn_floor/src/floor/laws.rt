//! The laws of a floor. Each function does nothing: its contract is the law, and a caller opens it by a call. They
//! speak of each state that keeps the floor's rule, and each step of a lane is from such a state to such a state.

ghost use Rattle.std.specs.Prelude.{◌≡◌, ℕ, ◌+◌, ◌++◌, ◌≤◌, [], List, length};
ghost use Rattle.cn_tables.specs.declared.end.End.{End};
ghost use Rattle.cn_ledger.specs.declared.moved.Moved.{Moved};
ghost use Rattle.cn_ledger.specs.Events.{Enters};
ghost use Rattle.cn_ledger.specs.Gaps.{IsNearShares, IsSmooth};
ghost use Rattle.cn_ledger.specs.Laws.{GrantsOnce, NamesDiffer};
ghost use Rattle.cn_ledger.specs.Ledger.{IsBounded, IsSound, IsTight, Ledger};
ghost use Rattle.cn_floor.specs.Ends.{NobodyInside};
ghost use Rattle.cn_floor.specs.Laws.{HasFewWords, HasWalked, HoldsLowNames, InEachState, InEachView, NamesOnce, NumbersDiffer, TakesItsSteps, VisitsGoOn, entered_at, ledger_at};
ghost use Rattle.cn_floor.specs.Consistent.{IsQuiescentlyConsistent};
ghost use Rattle.cn_floor.specs.EntersAll.{EnterInTurn};
ghost use Rattle.cn_floor.specs.GoesOn.{GoesOn};
ghost use Rattle.cn_floor.specs.History.{Event, LeadsTo};
ghost use Rattle.cn_floor.specs.Steps.{IsAtomicStep};
ghost use Rattle.cn_floor.specs.Sweeps.{GoInTurn};
ghost use Rattle.cn_floor.specs.declared.view.View.{View};
ghost use Rattle.cn_ledger.specs.Moves.{IsMoveOf};
ghost use Rattle.cn_floor.specs.Missing.{inside_at, names_missing_at};
ghost use Rattle.cn_floor.specs.Rule.{IsReached, IsStart, ledger_of};
ghost use Rattle.cn_floor.specs.Views.{base};
ghost use Rattle.cn_spec.specs.declared.limits.TheConstants.{MOST_TAKEN};

use super::Floor;

impl<'a> Floor<'a> {
    /// What a floor began with: a counting network, a quota of at most [`cn_spec::limits::MOST_TAKEN`], and the words
    /// of a sound ledger with nobody inside, which count at most as many clients. A floor with lanes began with less of
    /// both ([`super::Lane::lane_laws`]).
    pub fn start_laws(&self)
        ensures { IsStart self.now.start }
    {
        // Opens what each floor keeps.
        let _ = &self.counters;
    }

    /// No name stands twice in a lane: a lane that was joined of others has the names of all, each once. Each is below
    /// the number of clients that came in since the floor began.
    pub fn names_are_once(&self)
        ensures once { InEachView self.now.start NamesOnce }
        ensures low { InEachView self.now.start HoldsLowNames }
    {}

    /// No name is granted twice, by any lanes: two grants of one name are of one client, by one exit, with one visit,
    /// and no grant is made twice. Each name is below the number that came in. If the floor went on from others, each
    /// name is that of the ledger minus the number that came before, and is below the number that came in since.
    pub fn names_differ_and_are_low(&self)
        ensures differ { InEachState self.now.start (λ start s. NamesDiffer (ledger_at start s)) }
        ensures once { InEachState self.now.start (λ start s. GrantsOnce (ledger_at start s)) }
        ensures low { InEachState self.now.start (λ start s. IsBounded start.network.table (ledger_at start s)) }
        ensures late { InEachView self.now.start HoldsLowNames }
    {
        self.start_laws();
    }

    /// Some history led to each state: events, in each of which a client comes in, passes a balancer or leaves with a
    /// name, made its ledger of that with which the floor began, one after the other. Each ledger to which a history
    /// leads is sound.
    pub fn each_ledger_is_reached(&self)
        ensures reached { InEachState self.now.start (λ start s. IsReached start (ledger_at start s)) }
        ensures sound { (ledger : Ledger) → IsReached self.now.start ledger
            → IsSound self.now.start.network.table ledger }
    {
        self.start_laws();
    }

    /// No two passages of any lanes have one balancer and number, and no two grants one exit and visit.
    pub fn numbers_differ(&self)
        ensures { InEachState self.now.start NumbersDiffer }
    {}

    /// The visits on an exit go on from its share of the clients that came before the floor began.
    pub fn visits_go_on(&self)
        ensures { InEachState self.now.start VisitsGoOn }
    {
        self.start_laws();
    }

    /// No count wraps: each is at most the number that ever came, and that is at most those before and the quota, which
    /// are few; on a floor with lanes fewer still ([`super::Lane::lane_laws`]).
    pub fn words_are_few(&self)
        ensures counts { InEachState self.now.start HasFewWords }
        ensures came { InEachState self.now.start (λ start s. entered_at start s ≤ base start + start.quota) }
        ensures few { InEachState self.now.start (λ start s. base start + start.quota ≤ MOST_TAKEN + MOST_TAKEN) }
    {
        self.start_laws();
    }

    /// In each view, also that of a lane that was dropped, the passages are as many as the network is deep for each
    /// grant, and as each token inside is deep. So each token takes part in as many atomic steps as the network is
    /// deep, and two.
    pub fn tokens_take_their_steps(&self)
        ensures walked { InEachView self.now.start (λ start s v. HasWalked start v) }
        ensures steps { InEachView self.now.start (λ start s v. TakesItsSteps start v) }
    {
        self.start_laws();
    }

    /// No answer that a lane was given is more than the number that came in.
    pub fn answers_stay_true(&self)
        ensures { InEachView self.now.start (λ start s v. base start + v.seen ≤ entered_at start s) }
    {}

    /// At each moment as many of the names below the number of clients that came in are not granted yet as clients are
    /// inside. Each exit's count is its share of the clients that ever came, or less by no more than are inside; and
    /// the counts of any two exits differ by at most one more than are inside.
    pub fn as_many_names_are_missing_as_are_inside(&self)
        ensures names { InEachState self.now.start (λ start s. names_missing_at start s ≡ inside_at start s) }
        ensures counts { InEachState self.now.start (λ start s. IsNearShares start.network.table (ledger_at start s)) }
        ensures smooth { InEachState self.now.start (λ start s. IsSmooth (inside_at start s + 1) start.network.table
            (ledger_at start s)) }
    {
        self.start_laws();
    }

    /// The floor is quiescently consistent: from one moment with nobody inside to a later one, with m clients entered
    /// before and n since, the names that are granted are m to n - 1, each once. These are names of the ledger of all
    /// clients: those of the floor are less by the number that came before it.
    pub fn names_are_quiescently_consistent(&self)
        ensures { IsQuiescentlyConsistent self.now.start.network.table
            (ledger_of self.now.start.network.table self.now.start.words self.now.start.words []) }
    {
        self.start_laws();
    }

    /// What happens on a floor goes on: the events of an atomic step lead from the ledger of the state before it to
    /// that of the state after it, and histories can be joined. An entry and a move are one event, a list that comes in
    /// and a sweep are one for each client.
    pub fn histories_go_on(&self)
        ensures enters { (v w : View) (client entry : ℕ) (step : IsAtomicStep self.now.start v w
            (λ l m. Enters self.now.start.network.table l m client entry))
            → GoesOn self.now.start step.old step.new 1 }
        ensures moves { (v w : View) (client : ℕ) (answer : Moved) (step : IsAtomicStep self.now.start v w
            (λ l m. IsMoveOf self.now.start.network.table (base self.now.start) l m client answer))
            → GoesOn self.now.start step.old step.new 1 }
        ensures lists { (v w : View) (clients : List ℕ) (entry : ℕ) (step : IsAtomicStep self.now.start v w
            (EnterInTurn self.now.start.network.table clients entry 0 (length clients)))
            → GoesOn self.now.start step.old step.new (length clients) }
        ensures sweeps { (v w : View) (wire : ℕ) (end : End) (first : ℕ) (tokens : List (ℕ × ℕ))
            (step : IsAtomicStep self.now.start v w (GoInTurn self.now.start.network.table wire end first tokens))
            → GoesOn self.now.start step.old step.new (length tokens) }
        ensures joined { (before after : List Event) (first second third : Ledger)
            → LeadsTo self.now.start.network.table before first second
            → LeadsTo self.now.start.network.table after second third
            → LeadsTo self.now.start.network.table (after ++ before) first third }
    {}

    /// If nobody is inside, the ledger of all that ever came is tight: each exit has let out its share, and the names
    /// are those below the number that came in, each granted once.
    pub fn floors_end_tight(&self)
        ensures { InEachState self.now.start (λ start s. NobodyInside start s.views
            → IsTight start.network.table (ledger_at start s)) }
    {
        self.start_laws();
    }
}
