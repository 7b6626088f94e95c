//! The caller of the page of cn_epoch.

ghost use Rattle.std.specs.Prelude.{◌≤◌, length};
ghost use Rattle.cn_spec.specs.declared.limits.TheConstants.{MOST_CLIENTS};

/// An epoch has at most as many clients as it may.
pub fn few(epochs: &cn_epoch::Epochs)
    ensures { length epochs.now.core.clients ≤ MOST_CLIENTS }
{
    epochs.state_laws();
}
