// What holds of the definitions, for all findings.
ghost use Rattle.std.specs.Prelude.{◌≡◌, ℕ, List};
ghost use Rattle.type_kinds.specs.declared.atom.Atom.{Atom};
ghost use Rattle.warn_list.specs.declared.finding.Finding.{Finding};
ghost use Rattle.warn_list.specs.Lines.{AreLines};

/// The lines of findings are determined by the module's name and the findings.
pub fn one_text()
    ensures { (home : Atom) (findings : List Finding) (one other : List ℕ) → AreLines home findings one → AreLines home findings other → one ≡ other }
{}

/// Findings have lines, whatever the module's name.
pub fn a_text()
    ensures { (home : Atom) (findings : List Finding) → (bytes : List ℕ) × AreLines home findings bytes }
{}
