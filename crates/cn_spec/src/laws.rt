//! The laws of counts, names and networks. Each function does nothing: its contract is the law, and a caller opens it
//! by a call.

ghost use Rattle.std.specs.Prelude.{◌≡◌, ◌+◌, ◌%◌, ◌/◌, ◌^◌, ◌<◌, ◌≤◌, ◌↔◌, ℕ, suc, List, [], ◌∷◌, length};
ghost use Rattle.std.specs.List.{sum};
ghost use Rattle.cn_spec.specs.Step.{IsEachBelow, IsStep, counts_after, counts_of, half, name_of, names, share};
ghost use Rattle.cn_spec.specs.Step.{shares, shares_after};
ghost use Rattle.cn_spec.specs.Networks.{HasStepChains, IsRow, a_cochain, b_cochain, bitonic, block, merge, periodic, tree};
ghost use Rattle.cn_spec.specs.Sums.{IsOnceBelow, times};
ghost use Rattle.cn_spec.specs.declared.limits.TheConstants.{MOST_ARRIVALS, MOST_BALANCERS, MOST_CARRIED, MOST_CLIENTS, MOST_DIGITS, MOST_ENDS, MOST_HAND, MOST_LEVEL, MOST_NAMED, MOST_RECORDS, MOST_ROOM, MOST_TAKEN, MOST_TOKENS, MOST_WORKERS};

/// What each limit is, in numbers.
pub fn limits_are()
    ensures widths { MOST_LEVEL ≡ 8 }
    ensures wirings { (MOST_ENDS ≡ 4_096) × (MOST_BALANCERS ≡ 65_536) }
    ensures epochs { (MOST_CLIENTS ≡ 262_144) × (MOST_CARRIED ≡ 2_147_483_648) }
    ensures lanes { MOST_NAMED ≡ 2_147_483_648 }
    ensures takers { MOST_TAKEN ≡ 2 ^ 62 }
    ensures texts { (MOST_RECORDS ≡ 1_048_576) × (MOST_DIGITS ≡ 20) }
    ensures counts { MOST_ARRIVALS ≡ 2 ^ 32 }
    ensures yards { (MOST_TOKENS ≡ 4_294_967_294) × (MOST_ROOM ≡ 1_048_576) }
    ensures workers { (MOST_WORKERS ≡ 64) × (MOST_HAND ≡ 64) }
{}

/// A row of counts has the step property exactly if each count is its share of the sum (Aspnes, Herlihy, Shavit 1994,
/// section 2.2).
#[tactic(auto, using(crate::proofs::Shares::share_laws))]
pub fn step_is_shares()
    ensures { (counts : List ℕ) → IsStep counts ↔ (counts ≡ shares (sum counts) (length counts)) }
{}

/// The two halves of what passes a balancer, and the shares of all exits, are the whole: no token is lost or made.
#[tactic(auto, using(crate::proofs::Shares::share_laws))]
pub fn shares_conserve()
    ensures halves { (n : ℕ) → half n 0 + half n 1 ≡ n }
    ensures shares { (m w : ℕ) → 0 < w → sum (shares m w) ≡ m }
{}

/// The shares of tokens that come after no others are their shares.
#[tactic(auto, using(crate::proofs::Names::count_laws))]
pub fn first_shares_are_shares()
    ensures { (k w : ℕ) → shares_after 0 k w ≡ shares k w }
{}

/// The names that the exits give out among m tokens are the numbers below m, each once; and a name determines its exit
/// and its visit.
#[tactic(auto, using(crate::proofs::Names::name_laws))]
pub fn names_are_tight()
    ensures each_once { (m w : ℕ) → 0 < w → IsEachBelow m (names m w) }
    ensures below { (m w i v : ℕ) → i < w → (v < share m w i) ↔ (name_of w i v < m) }
    ensures read { (w i v : ℕ) → i < w → (name_of w i v % w ≡ i) × (name_of w i v / w ≡ v) }
    ensures written { (w n : ℕ) → name_of w (n % w) (n / w) ≡ n }
{}

/// A list in which each number below m stands once, and no other number, is an order of those numbers.
#[tactic(auto, using(crate::proofs::Times::each_below))]
pub fn once_below_is_each_below()
    ensures { (m : ℕ) (xs : List ℕ) → IsOnceBelow m xs → IsEachBelow m xs }
{}

/// A list of m numbers in which each number below m stands is an order of those numbers; and in an order of them each
/// stands once, and no other number does.
#[tactic(auto, using(crate::proofs::Times::all_below, crate::proofs::Times::once_each))]
pub fn all_below_is_each_below()
    ensures all_stand { (m : ℕ) (xs : List ℕ) → length xs ≡ m
        → ((n : ℕ) → n < m → 1 ≤ times n xs) → IsEachBelow m xs }
    ensures each_once { (m : ℕ) (xs : List ℕ) → IsEachBelow m xs → IsOnceBelow m xs }
{}

/// Of the names below k, in any order, as many are those of an exit as its share of k; and if m is taken from each,
/// since m tokens came before, as its share of m + k minus its share of m.
#[tactic(auto, using(crate::proofs::Names::count_laws))]
pub fn tight_names_are_shared()
    ensures first { (w k : ℕ) (names : List ℕ) → IsEachBelow k names → counts_of w names ≡ shares k w }
    ensures after { (w m k : ℕ) (names : List ℕ) → IsEachBelow k names
        → counts_after m w names ≡ shares_after m k w }
{}

/// The merger of two rows with the step property has it (Aspnes, Herlihy, Shavit 1994, section 3), and no token is
/// lost or made.
#[tactic(auto, using(crate::proofs::Merger::merger_laws))]
pub fn merger_counts()
    ensures is_step { (level : ℕ) (x y : List ℕ) → IsRow level x → IsRow level y
        → IsStep x → IsStep y → IsStep (merge level x y) }
    ensures shares { (level : ℕ) (x y : List ℕ) → IsRow level x → IsRow level y → IsStep x → IsStep y
        → merge level x y ≡ shares (sum x + sum y) (2 ^ suc level) }
    ensures is_row { (level : ℕ) (x y : List ℕ) → IsRow level x → IsRow level y
        → IsRow (suc level) (merge level x y) }
    ensures conserves { (level : ℕ) (x y : List ℕ) → IsRow level x → IsRow level y
        → sum (merge level x y) ≡ sum x + sum y }
{}

/// The bitonic network's counts are the shares of what enters, whatever enters (Aspnes, Herlihy, Shavit 1994,
/// section 3): so they have the step property, and no token is lost or made.
#[tactic(auto, using(crate::proofs::Merger::bitonic_laws))]
pub fn bitonic_counts()
    ensures shares { (level : ℕ) (x : List ℕ) → IsRow level x
        → bitonic level x ≡ shares (sum x) (2 ^ level) }
    ensures is_step { (level : ℕ) (x : List ℕ) → IsRow level x → IsStep (bitonic level x) }
    ensures conserves { (level : ℕ) (x : List ℕ) → IsRow level x → sum (bitonic level x) ≡ sum x }
{}

/// The chains of a row's own level are its single counts, so each has the step property; and the chain of level 0 is
/// the row (Aspnes, Herlihy, Shavit 1994, section 4).
#[tactic(auto, using(crate::proofs::Blocks::chain_laws))]
pub fn highest_and_lowest_chains()
    ensures highest { (level : ℕ) (x : List ℕ) → IsRow level x → HasStepChains level x }
    ensures lowest { (x : List ℕ) → HasStepChains 0 x ↔ IsStep x }
{}

/// A block lowers by one the level of the chains that have the step property (Aspnes, Herlihy, Shavit 1994, section 4),
/// a block over two wires is one balancer, and no token is lost or made.
#[tactic(auto, using(crate::proofs::Blocks::block_laws))]
pub fn block_lowers_chains()
    ensures lowers { (level i : ℕ) (x : List ℕ) → i < level → IsRow level x
        → HasStepChains (suc i) x → HasStepChains i (block level x) }
    ensures pair { (a b : ℕ) → block 1 (a ∷ b ∷ []) ≡ half (a + b) 0 ∷ half (a + b) 1 ∷ [] }
    ensures is_row { (level : ℕ) (x : List ℕ) → IsRow level x → IsRow level (block level x) }
    ensures conserves { (level : ℕ) (x : List ℕ) → IsRow level x → sum (block level x) ≡ sum x }
{}

/// The periodic network's counts are the shares of what enters, whatever enters (Aspnes, Herlihy, Shavit 1994,
/// section 4): so they have the step property, and no token is lost or made.
#[tactic(auto, using(crate::proofs::Blocks::periodic_laws))]
pub fn periodic_counts()
    ensures shares { (level : ℕ) (x : List ℕ) → IsRow level x
        → periodic level x ≡ shares (sum x) (2 ^ level) }
    ensures is_step { (level : ℕ) (x : List ℕ) → IsRow level x → IsStep (periodic level x) }
    ensures conserves { (level : ℕ) (x : List ℕ) → IsRow level x → sum (periodic level x) ≡ sum x }
{}

/// The tree's counts are the shares of what enters (Shavit, Zemach 1996, section 2): so they have the step property,
/// and no token is lost or made.
#[tactic(auto, using(crate::proofs::Shares::tree_laws))]
pub fn tree_counts()
    ensures shares { (level m : ℕ) → tree level m ≡ shares m (2 ^ level) }
    ensures is_step { (level m : ℕ) → IsStep (tree level m) }
    ensures conserves { (level m : ℕ) → sum (tree level m) ≡ m }
{}

/// Small rows, computed.
#[tactic(auto, unfolding(crate::specs::Networks::merge, crate::specs::Networks::bitonic, crate::specs::Networks::block, crate::specs::Networks::blocks, crate::specs::Networks::periodic, crate::specs::Networks::tree))]
pub fn worked_rows()
    ensures bitonic_five { bitonic 2 (0 ∷ 0 ∷ 0 ∷ 5 ∷ []) ≡ 2 ∷ 1 ∷ 1 ∷ 1 ∷ [] }
    ensures bitonic_split { bitonic 2 (1 ∷ 0 ∷ 1 ∷ 0 ∷ []) ≡ 1 ∷ 1 ∷ 0 ∷ 0 ∷ [] }
    ensures bitonic_wide { bitonic 3 (9 ∷ 0 ∷ 4 ∷ 0 ∷ 0 ∷ 7 ∷ 1 ∷ 30 ∷ []) ≡ shares 51 8 }
    ensures merger_crossed { merge 1 (1 ∷ 0 ∷ []) (1 ∷ 0 ∷ []) ≡ 1 ∷ 1 ∷ 0 ∷ 0 ∷ [] }
    ensures merger_wide { merge 2 (3 ∷ 2 ∷ 2 ∷ 2 ∷ []) (1 ∷ 1 ∷ 1 ∷ 0 ∷ [])
        ≡ 2 ∷ 2 ∷ 2 ∷ 2 ∷ 1 ∷ 1 ∷ 1 ∷ 1 ∷ [] }
    ensures cochain_a { a_cochain (0 ∷ 1 ∷ 2 ∷ 3 ∷ 4 ∷ 5 ∷ 6 ∷ 7 ∷ []) ≡ 0 ∷ 3 ∷ 4 ∷ 7 ∷ [] }
    ensures cochain_b { b_cochain (0 ∷ 1 ∷ 2 ∷ 3 ∷ 4 ∷ 5 ∷ 6 ∷ 7 ∷ []) ≡ 1 ∷ 2 ∷ 5 ∷ 6 ∷ [] }
    ensures one_block_is_not_enough { block 2 (2 ∷ 0 ∷ 0 ∷ 0 ∷ []) ≡ 1 ∷ 0 ∷ 1 ∷ 0 ∷ [] }
    ensures periodic_two { periodic 2 (2 ∷ 0 ∷ 0 ∷ 0 ∷ []) ≡ 1 ∷ 1 ∷ 0 ∷ 0 ∷ [] }
    ensures tree_three { tree 2 3 ≡ 1 ∷ 1 ∷ 1 ∷ 0 ∷ [] }
{}
