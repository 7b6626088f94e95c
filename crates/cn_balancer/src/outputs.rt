//! On which output each token leaves.

ghost use Rattle.std.specs.Prelude.{◌≡◌, ◌==◌, ◌%◌, ◌<◌, ◌≤◌};
ghost use Rattle.cn_spec.specs.Step.{half};
ghost use Rattle.cn_spec.specs.Sums.{sum_below, when};

use cn_spec::limits::MOST_ARRIVALS;

/// The output, 0 or 1, on which the token with this number leaves a balancer. Numbers count from 0.
///
/// Aspnes, Herlihy, Shavit 1994, section 2.1.
pub fn output_of(number: u64) -> u32
    ensures { result ≡ number % 2 }
{
    (number % 2) as u32
}

/// How many of the first `count` tokens leave a balancer on `output`, which is 0 or 1.
///
/// `count` is at most [`MOST_ARRIVALS`]. Aspnes, Herlihy, Shavit 1994, section 2.1.
#[tactic(auto, using(crate::proofs::Turns::half_counts))]
pub fn departures(count: u64, output: u32) -> u64
    requires count { count ≤ MOST_ARRIVALS }
    requires output { output < 2 }
    ensures half { result ≡ half count output }
    ensures counted { result ≡ sum_below count (λ number. when ((number % 2) == output) 1) }
{
    (count + 1 - output as u64) / 2
}
