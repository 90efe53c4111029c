ghost use Rattle.std.specs.Prelude.{◌≡◌, List, [], ◌∷◌, None};
ghost use Rattle.romp_asm.specs.Below.{AllByRecursion, Statement};
ghost use Rattle.romp_asm.specs.Layout.{assembled};
ghost use Rattle.romp_asm.specs.Linked.{exported, linked};

/// One source in which no line exports a label makes what its statements make.
#[tactic(auto, using(crate::proofs::ExportLemmas::linked_alone))]
pub fn a_source_without_exports_is_as_before()
    ensures { (statements : List Statement) → AllByRecursion (λ statement. exported statement.body ≡ None) statements → linked (statements ∷ []) ≡ assembled statements }
{}
