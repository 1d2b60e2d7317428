//! Laws of the definitions. The contract of each function is the law.

ghost use Rattle.std.specs.Prelude.{◌≡◌, ◌↔◌, ℕ, List, Option, Result};
ghost use Rattle.wi_parser.specs.declared.content.Content.{Content};
ghost use Rattle.wi_import.specs.Fields.{Field};
ghost use Rattle.wi_import.specs.Imports.{IsImport};
ghost use Rattle.wi_import.specs.Inner.Reading.{import_of};
ghost use Rattle.wi_import.specs.declared.fault.ImportFault.{ImportFault};

/// What an import of fields comes to: the changes that they bring, or the first fault.
#[tactic(auto, using(crate::proofs::ImportLemmas::import_exactly))]
pub fn what_an_import_is()
    ensures { (fields : List Field) (r : Result (List (ℕ × Option Content)) ImportFault)
        → IsImport fields r ↔ (import_of fields ≡ r) }
{}

/// Fields are imported with some changes, or refused for some fault, and nothing else.
pub fn one_import()
    ensures some { (fields : List Field)
        → (r : Result (List (ℕ × Option Content)) ImportFault) × IsImport fields r }
    ensures no_other { (fields : List Field) (r s : Result (List (ℕ × Option Content)) ImportFault)
        → IsImport fields r → IsImport fields s → r ≡ s }
{}
