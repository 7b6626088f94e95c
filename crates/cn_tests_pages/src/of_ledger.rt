//! The caller of the page of cn_ledger.

ghost use Rattle.cn_ledger.specs.Laws.{AllSound};
ghost use Rattle.cn_ledger.specs.Ledger.{IsQuiescent, IsTight};

/// When nobody is inside, the ledger is tight.
pub fn quiet()
    ensures { AllSound (λ table ledger. IsQuiescent table ledger → IsTight table ledger) }
{
    cn_ledger::laws::quiet_ledgers_are_tight();
}
