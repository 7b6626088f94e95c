//! Tokens that pass the ends of wires together: all who stand on a wire at once, and then each half.

ghost use Rattle.std.specs.Prelude.{◌≡◌, ℕ, ◌+◌, ◌-◌, ◌/◌, ◌<◌, ◌≤◌, ◌^◌, ◌++◌, [], List, length};
ghost use Rattle.cn_spec.specs.Step as step;
ghost use Rattle.cn_yard.specs.Deals.{every_second};
ghost use Rattle.cn_yard.specs.Lists.{on, times_in};
ghost use Rattle.cn_lists.specs.Listed.{CameIn, HaveLeft, HaveWalked, gone_too, placed};
ghost use Rattle.cn_floor.specs.EntersAll.{ComeTogether};
ghost use Rattle.cn_floor.specs.Named.{AllLeft};
ghost use Rattle.cn_floor.specs.Sweeps.{SweptBy, grants_out};
ghost use Rattle.cn_floor.specs.declared.view.Grant.{Grant};

use cn_balancer::output_of;
use cn_floor::{Floor, Post};
use cn_tables::{Counting, End};

/// Which tokens stand on one wire. Of those who leave, notes of type `N` are taken.
pub(crate) trait Party<N>: Copy {
    /// What stays the same of notes, whoever is noted.
    ghost Frame: { Type 0 };

    ghost kept: { N → Frame };

    /// How many more may be noted.
    ghost room: { N → ℕ };

    /// The clients who may be noted.
    ghost clients_of: { N → List ℕ };

    /// So many of them may be these.
    ghost Are: { Frame → Self → ℕ → List (ℕ × ℕ) → Type 0 };

    /// Of these grants all after the first ones have been noted, of tokens that have gone so often.
    ghost Noted: { List Grant → List Grant → (ℕ → ℕ) → N → Type 0 };

    /// The clients who may be noted.
    fn clients<'n>(self, notes: &'n N) -> &'n [u64]
        ensures { result.now ≡ clients_of notes.now };

    /// Every second of them, from the first on, and the others.
    fn halves(self, count: usize) -> (Self, Self)
        requires some { 2 ≤ count }
        requires are { (frame : Frame) × (tokens : List (ℕ × ℕ)) × Are frame self count tokens }
        ensures { (frame : Frame) (tokens : List (ℕ × ℕ)) → Are frame self count tokens
            → Are frame result.0 (count - count / 2) (every_second 0 tokens)
            × Are frame result.1 (count / 2) (every_second 1 tokens) };

    /// Those who go on by output 0 of a balancer, and by output 1, of which the first goes by this output.
    fn deal(self, count: usize, output: u32) -> (Self, Self)
        requires some { 2 ≤ count }
        requires output { output < 2 }
        requires are { (frame : Frame) × (tokens : List (ℕ × ℕ)) × Are frame self count tokens }
        ensures { (frame : Frame) (tokens : List (ℕ × ℕ)) → Are frame self count tokens
            → Are frame result.0 (count - (count + output) / 2) (every_second output tokens)
            × Are frame result.1 ((count + output) / 2) (every_second (1 - output) tokens) }
    {
        let (even, odd) = self.halves(count);
        if output == 0 {
            (even, odd)
        } else {
            (odd, even)
        }
    }

    /// Notes that they leave by an exit with the visits from `first` on. From each name the number of clients is taken
    /// that came before the floor began.
    fn leave(self, notes: &mut N, count: usize, exit: u32, first: u64, width: u32, base: u64)
        requires are { (tokens : List (ℕ × ℕ)) × Are (kept notes.old) self count tokens }
        requires room { count ≤ room notes.old }
        requires exit { exit < width }
        requires low { base ≤ step.name_of width exit first }
        requires high { step.name_of width exit (first + count) < 2 ^ 64 }
        ensures kept { kept notes.new ≡ kept notes.old }
        ensures room { room notes.new + count ≡ room notes.old }
        ensures noted { (tokens : List (ℕ × ℕ)) (before now : List Grant) (gone : ℕ → ℕ) → length tokens ≡ count
            → Are (kept notes.old) self count tokens → Noted before now gone notes.old
            → Noted before (now ++ grants_out width base exit first tokens) (gone_too gone tokens) notes.new };
}

/// Lets a party that stands on a wire pass its end together, and then each half, until all have left. Nobody stands
/// on a greater wire: those who go on to the greater of two wires leave first.
pub(crate) fn pass_all<N, P: Party<N>>(
    floor: &Floor<'_>,
    network: &Counting,
    post: &mut Post,
    notes: &mut N,
    party: P,
    count: usize,
    wire: u32,
)
    requires own { post.old.home ≡ floor.now }
    requires wire { wire < length floor.now.start.network.table.ends }
    requires once { (token : ℕ) → times_in post.old.view.tokens token ≤ 1 }
    requires network { network.now ≡ floor.now.start.network }
    requires many { length (on post.old.view.tokens wire) ≡ count }
    requires party { P.Are (P.kept notes.old) party count (on post.old.view.tokens wire) }
    requires above { (u : ℕ) → wire < u → on post.old.view.tokens u ≡ [] }
    requires room { count ≤ P.room notes.old }
    ensures home { post.new.home ≡ post.old.home }
    ensures swept { (wires : List ℕ) × SweptBy floor.now.start wires post.old.view post.new.view }
    ensures left { HaveLeft post.old.view post.new.view wire (on post.old.view.tokens wire) }
    ensures once { (token : ℕ) → times_in post.new.view.tokens token ≤ 1 }
    ensures kept { P.kept notes.new ≡ P.kept notes.old }
    ensures room { P.room notes.new + count ≡ P.room notes.old }
    ensures noted { (before : List Grant) (gone : ℕ → ℕ) → P.Noted before post.old.view.grants gone notes.old
        → P.Noted before post.new.view.grants (gone_too gone (on post.old.view.tokens wire)) notes.new }
{
    if count == 0 {
        return;
    }
    floor.start_laws();
    let (end, number) = floor.let_by(network, post, wire, count as u64);
    match end {
        End::Balancer(balancer) => {
            let out = network.entries() + 2 * balancer;
            let output = output_of(number);
            if count == 1 {
                return pass_all(floor, network, post, notes, party, count, out + output);
            }
            let many = (count + output as usize) / 2;
            let (upper, lower) = party.deal(count, output);
            pass_all(floor, network, post, notes, lower, many, out + 1);
            pass_all(floor, network, post, notes, upper, count - many, out);
        }
        End::Exit(exit) => party.leave(notes, count, exit, number, network.width(), floor.base()),
    }
}

/// Lets the clients who may be noted in by one entry, in one atomic step, by a view with nobody inside: how many they
/// are. Each one's token has the number of its place in the list.
fn come_in<N, P: Party<N>>(
    floor: &Floor<'_>,
    post: &mut Post,
    notes: &N,
    party: P,
    entry: u32,
) -> usize
    requires own { post.old.home ≡ floor.now }
    requires out { (wire : ℕ) → on post.old.view.tokens wire ≡ [] }
    requires entry { entry < floor.now.start.network.table.entries }
    requires quota { length (P.clients_of notes.now) ≤ post.old.view.quota }
    ensures home { post.new.home ≡ post.old.home }
    ensures count { result ≡ length (P.clients_of notes.now) }
    ensures came { CameIn post.old.view post.new.view (P.clients_of notes.now) entry
        (length (P.clients_of notes.now)) }
    ensures step { ComeTogether floor.now.start (P.clients_of notes.now) entry post.old.view post.new.view }
{
    floor.start_laws();
    post.post_laws();
    let clients = party.clients(notes);
    floor.enter_list(post, clients, entry);
    clients.len()
}

/// Lets the clients who may be noted in by one entry and walks them out, by a view with nobody inside.
pub(crate) fn walk_party<N, P: Party<N>>(
    floor: &Floor<'_>,
    post: &mut Post,
    notes: &mut N,
    party: P,
    entry: u32,
)
    requires own { post.old.home ≡ floor.now }
    requires out { (wire : ℕ) → on post.old.view.tokens wire ≡ [] }
    requires entry { entry < floor.now.start.network.table.entries }
    requires quota { length (P.clients_of notes.old) ≤ post.old.view.quota }
    requires party { P.Are (P.kept notes.old) party (length (P.clients_of notes.old))
        (placed (P.clients_of notes.old) 0 1 (length (P.clients_of notes.old))) }
    requires room { length (P.clients_of notes.old) ≤ P.room notes.old }
    ensures home { post.new.home ≡ post.old.home }
    ensures left { AllLeft (length (P.clients_of notes.old)) post.old.view post.new.view }
    ensures walked { HaveWalked floor.now.start (P.clients_of notes.old) entry post.old.view post.new.view }
    ensures kept { P.kept notes.new ≡ P.kept notes.old }
    ensures noted { (before : List Grant) (gone : ℕ → ℕ) → P.Noted before post.old.view.grants gone notes.old
        → P.Noted before post.new.view.grants (gone_too gone
        (placed (P.clients_of notes.old) 0 1 (length (P.clients_of notes.old)))) notes.new }
{
    post.post_laws();
    let count = come_in(floor, post, notes, party, entry);
    let network = floor.network();
    pass_all(floor, network, post, notes, party, count, entry);
}
