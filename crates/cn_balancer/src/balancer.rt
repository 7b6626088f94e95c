//! For callers in Rattle: one balancer by itself. The balancers of the program are words of a floor or of a core, and
//! take of this crate only [`crate::output_of`].

ghost use Rattle.std.specs.Prelude.{◌≡◌, ◌==◌, ℕ, ◌+◌, ◌%◌, ◌<◌, ◌≤◌, ◌↔◌, IsTrue, [], ◌∷◌, slice_index, slice_set};
ghost use Rattle.cn_spec.specs.Step.{half};
ghost use Rattle.cn_spec.specs.Sums.{when};
ghost use Rattle.cn_balancer.specs.Traffic.{all_arrivals};

use crate::outputs::{departures, output_of};
use cn_spec::limits::MOST_ARRIVALS;
use std::marker::Model;

/// A balancer: tokens come by inputs 0 and 1, and leave on outputs 0 and 1 by turns.
///
/// Aspnes, Herlihy, Shavit 1994, section 2.1.
#[derive(Debug, Drop)]
pub struct Balancer {
    arrivals: [u64; 2],
    passages: u64,
}

/// A passage of a balancer.
#[derive(Clone, Copy, Debug, PartialEq, Eq)]
pub struct Pass {
    /// Which passage of the balancer it is, counted from 0.
    pub number: u64,
    /// The output, 0 or 1, on which the token left.
    pub output: u32,
}

impl Model for Balancer {
    ghost use Rattle.cn_balancer.specs.Traffic.{Traffic};

    ghost Value = { Traffic };

    ghost use Rattle.cn_balancer.specs.InsideBalancer.{traffic_of, IsBalanced};

    ghost view = { traffic_of };

    ghost invariant = { IsBalanced };
}

impl Balancer {
    /// A balancer to which no token has come.
    pub fn new() -> Self
        ensures { result ≡ record { arrivals = 0 ∷ 0 ∷ []; passages = 0 } }
    {
        Balancer {
            arrivals: [0, 0],
            passages: 0,
        }
    }

    /// A token comes by `input`, which is 0 or 1, and waits. The balancer is not full before ([`Balancer::is_full`]).
    pub fn arrive(&mut self, input: u32)
        requires input { input < 2 }
        requires room { all_arrivals self.old < MOST_ARRIVALS }
        ensures arrived { self.new.arrivals
            ≡ slice_set self.old.arrivals input (slice_index self.old.arrivals input + 1) }
        ensures passed { self.new.passages ≡ self.old.passages }
        ensures one_more { all_arrivals self.new ≡ all_arrivals self.old + 1 }
    {
        let input = input as usize;
        self.arrivals[input] += 1;
    }

    /// A token that waits passes the balancer, and leaves on the output whose turn it is. At least one token waits
    /// before ([`Balancer::waiting`]).
    pub fn pass(&mut self) -> Pass
        requires { self.old.passages < all_arrivals self.old }
        ensures number { result.number ≡ self.old.passages }
        ensures output { result.output ≡ result.number % 2 }
        ensures arrived { self.new.arrivals ≡ self.old.arrivals }
        ensures passed { self.new.passages ≡ self.old.passages + 1 }
        ensures departed { (output : ℕ) → output < 2 → half self.new.passages output
            ≡ half self.old.passages output + when (result.output == output) 1 }
    {
        let number = self.passages;
        self.passages += 1;
        Pass {
            number,
            output: output_of(number),
        }
    }

    /// How many tokens have come by `input`, which is 0 or 1.
    pub fn arrived(&self, input: u32) -> u64
        requires { input < 2 }
        ensures { result ≡ slice_index self.now.arrivals input }
    {
        self.arrivals[input as usize]
    }

    /// How many tokens have left on `output`, which is 0 or 1.
    pub fn departed(&self, output: u32) -> u64
        requires { output < 2 }
        ensures { result ≡ half self.now.passages output }
    {
        departures(self.passages, output)
    }

    /// How many tokens have come and not passed yet. If it is 0, the balancer is quiescent.
    pub fn waiting(&self) -> u64
        ensures { result + self.now.passages ≡ all_arrivals self.now }
    {
        self.arrivals[0] + self.arrivals[1] - self.passages
    }

    /// Whether as many tokens have come as can, which is [`MOST_ARRIVALS`] over both inputs.
    pub fn is_full(&self) -> bool
        ensures full { IsTrue result ↔ (MOST_ARRIVALS ≤ all_arrivals self.now) }
        ensures limit { all_arrivals self.now ≤ MOST_ARRIVALS }
    {
        self.arrivals[0] + self.arrivals[1] >= MOST_ARRIVALS
    }
}
