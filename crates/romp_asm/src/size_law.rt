ghost use Rattle.std.specs.Prelude.{◌≡◌};
ghost use Rattle.asm_parse.specs.declared.statement.Body.{Body};
ghost use Rattle.romp_asm.specs.Size.{SameMnemonic, size_of};

/// A statement's size depends on its mnemonic and the number of `.space` alone.
pub fn size_is_by_mnemonic()
    ensures { (one other : Body) → SameMnemonic one other → size_of one ≡ size_of other }
{}
