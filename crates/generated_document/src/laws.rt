//! Laws of generated documents. The call does nothing; its clauses are the laws.
ghost use Rattle.std.specs.Prelude.{◌≤◌};
ghost use Rattle.dsc_document.specs.declared.limits.TheConstants.{MAX_RESOURCES};
ghost use Rattle.generated_document.specs.Laws.{Exists, IsNeverRefused};

/// The text of a count in the range declares a document, and no refusal applies to it, out of memory aside.
pub fn generated_laws(count: u32)
    requires few { count ≤ MAX_RESOURCES }
    ensures never_refused { IsNeverRefused count }
    ensures exists { Exists count }
{}
