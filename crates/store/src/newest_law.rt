ghost use Rattle.store.specs.Opened.{NewestLaw};

/// The law of newest places: a line of a bank that was read has none exactly where no record of the bank has the
/// line (docs/MODEL.md, "A bank that is kept"). The call does nothing; its contract is the law.
pub fn what_no_record_has_is_nowhere()
    ensures { NewestLaw }
{}
