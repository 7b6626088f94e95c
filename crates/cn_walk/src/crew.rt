//! Workers who run epochs.

ghost use Rattle.std.specs.Prelude.{◌≡◌, ◌+◌, ◌<◌, ◌≤◌};
ghost use Rattle.cn_spec.specs.declared.limits.TheConstants.{MOST_NAMED};
ghost use Rattle.cn_walk.specs.Crew.{IsCrew, nearest_part};

/// Workers whose numbers follow one another, with so many clients in hand each.
#[derive(Clone, Copy, Debug, PartialEq, Eq)]
pub struct Crew {
    /// The number by which the first asks the gate; the others have those that follow, and after `u32::MAX` comes 0.
    pub first: u32,
    /// How many they are.
    pub workers: u32,
    /// How many clients each of them has inside at most.
    pub hand: u32,
}

impl Crew {
    /// Two crews of these workers, who are two at least, with their numbers and their hand: the first workers, and
    /// those after them. The first crew has the part of them that is nearest to `part` of `whole`, so far as each has
    /// one at least.
    pub fn split(self, part: usize, whole: usize) -> (Crew, Crew)
        requires crew { IsCrew self }
        requires two { 2 ≤ self.workers }
        requires part { (part ≤ whole) × (0 < whole) }
        requires few { whole ≤ MOST_NAMED }
        ensures first { IsCrew result.0 }
        ensures second { IsCrew result.1 }
        ensures all { result.0.workers + result.1.workers ≡ self.workers }
        ensures nearest { result.0.workers ≡ nearest_part self.workers part whole }
        ensures numbers { (result.0.first ≡ self.first) × (result.1.first ≡ self.first + result.0.workers) }
        ensures hand { (result.0.hand ≡ self.hand) × (result.1.hand ≡ self.hand) }
    {
        let (part, whole) = (part as u64, whole as u64);
        let share = (u64::from(self.workers) * part + whole / 2) / whole;
        let workers = (share as u32).max(1).min(self.workers - 1);
        let first = Crew { workers, ..self };
        let second = Crew {
            first: self.first + workers,
            workers: self.workers - workers,
            ..self
        };
        (first, second)
    }
}
