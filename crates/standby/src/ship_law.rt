// What the definition of a ship text comes to.
ghost use Rattle.standby.specs.Text.{HoldsOne};

/// The law of a ship text: it holds one content, so whoever reads it follows what was shipped (docs/MODEL.md, "A ship
/// text"). The call does nothing; its contract is the law.
pub fn a_text_holds_one_content()
    ensures { HoldsOne }
{}
