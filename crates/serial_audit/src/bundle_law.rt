// What the definition of a bundle comes to.
ghost use Rattle.serial_audit.specs.Bundle.{HasOneSplitting};

/// The law of a bundle: it has its parts in one way, so whoever splits it audits what was bundled (docs/MODEL.md,
/// "An audit"). The call does nothing; its contract is the law.
pub fn a_bundle_has_one_splitting()
    ensures { HasOneSplitting }
{}
