//! The caller of the page of cn_spec.

ghost use Rattle.std.specs.Prelude.{◌≡◌, ◌+◌, ℕ};
ghost use Rattle.cn_spec.specs.Step.{half};

/// A balancer loses no token.
pub fn no_token_is_lost()
    ensures { (n : ℕ) → half n 0 + half n 1 ≡ n }
{
    cn_spec::laws::shares_conserve();
}
