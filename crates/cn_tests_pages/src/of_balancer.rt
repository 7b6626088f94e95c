//! The caller of the page of cn_balancer.

use cn_balancer::{Balancer, Pass};

/// One waiting token passes, if there is one.
pub fn pass_one(balancer: &mut Balancer) -> Option<Pass> {
    if 0 < balancer.waiting() {
        Some(balancer.pass())
    } else {
        None
    }
}
