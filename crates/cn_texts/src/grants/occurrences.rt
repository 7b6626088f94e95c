//! The numbers that the records of an epoch give, and which of them stand at an earlier record.

ghost use Rattle.std.specs.Prelude.{◌≡◌, ◌≤◌, ◌⊎◌, ℕ, List, IfSome, None, Some, length};
ghost use Rattle.std.specs.List.Sorted.{IsPermutation, IsStrictlyIncreasing};
ghost use Rattle.cn_texts.specs.Grants.Occurrences.{IsFirstRepeat, has_number, numbers_of, occurrences_from};
ghost use Rattle.cn_texts.specs.Grants.TightList.{IsLeastMissing};

/// A number, and the place, among those of an epoch, of the record that gives it.
#[derive(Clone, Copy, PartialEq, Eq, PartialOrd, Ord)]
pub(crate) struct Occurrence {
    pub(crate) number: u64,
    pub(crate) place: u32,
}

/// The earlier of a place and another, if there is another.
fn earlier(other: Option<u32>, place: u32) -> u32
    ensures low { result ≤ place }
    ensures lower { IfSome other (λ other. result ≤ other) }
    ensures one { (result ≡ place) ⊎ (other ≡ Some result) }
{
    match other {
        Some(other) if other < place => other,
        _ => place,
    }
}

/// Sorts occurrences, which come in the order of their places, by their numbers, and those of one number by their
/// places. Returns the first place whose number stands at an earlier one too.
pub(crate) fn first_repeat(occurrences: &mut [Occurrence]) -> Option<u32>
    ensures order { IsPermutation occurrences.old occurrences.new }
    ensures first { (numbers : List ℕ) → occurrences.old ≡ occurrences_from 0 numbers
        → IsFirstRepeat numbers result }
    ensures rising { (numbers : List ℕ) → occurrences.old ≡ occurrences_from 0 numbers
        → result ≡ None → IsStrictlyIncreasing (numbers_of occurrences.new) }
{
    occurrences.sort_unstable();
    let mut first = None;
    for at in 1..occurrences.len() {
        let Occurrence { number, place } = occurrences[at];
        if number == occurrences[at - 1].number {
            first = Some(earlier(first, place));
        }
    }
    first
}

/// The least number below how many there are that is missing among numbers, if they rise.
pub(crate) fn least_missing(occurrences: &[Occurrence]) -> Option<u64>
    ensures { IsStrictlyIncreasing (numbers_of occurrences.now)
        → IsLeastMissing (has_number (numbers_of occurrences.now)) (length occurrences.now) result }
{
    for at in 0..occurrences.len() {
        let number = at as u64;
        if occurrences[at].number != number {
            return Some(number);
        }
    }
    None
}
