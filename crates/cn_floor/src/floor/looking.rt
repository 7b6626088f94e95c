//! For callers in Rattle: two lanes of one floor, looked at together. Neither the program nor the library asks this.

ghost use Rattle.std.specs.Prelude.{◌≡◌};
ghost use Rattle.cn_floor.specs.Steps.{IsAnswer};
ghost use Rattle.cn_floor.specs.Together.{HaveDistinctNames, StoodAsOne, first_after, second_after};

use super::Floor;
use super::lane::Lane;

impl<'a> Floor<'a> {
    /// Looks at two lanes at one moment, and gives them back, with how many clients came in since the floor began, as
    /// far as one lane can see. No name of one lane is a name of the other, and none stands twice; each is below that
    /// answer, and so below every later one of either lane ([`Floor::entered`]). It takes no memory, and loads the word
    /// of each entry once and the lanes' word, which nobody changes, four times.
    ///
    /// Both lanes are taken into one seat for a moment, so it wants both; threads that walk other lanes go on
    /// meanwhile.
    pub fn look_at_both(&self, mut lane: Lane, other: Lane) -> (Lane, Lane, u64)
        requires own { (lane.home ≡ self.now) × (other.home ≡ self.now) }
        ensures first { result.0
            ≡ record lane { view = first_after self.now.start result.2 lane.view } }
        ensures second { result.1 ≡ record other { view = second_after result.2 other.view } }
        ensures distinct { HaveDistinctNames result.0.view result.1.view }
        ensures answer { IsAnswer self.now.start lane.view result.2
            × IsAnswer self.now.start other.view result.2 }
        ensures in_state { StoodAsOne self.now.start result.0.view result.1.view result.2 }
    {
        let Lane {
            post,
            yard,
            grants,
            room,
        } = other;
        let (post, entered) = self.look_at_both_posts(&mut lane.post, post);
        let other = Lane {
            post,
            yard,
            grants,
            room,
        };
        (lane, other, entered)
    }
}
