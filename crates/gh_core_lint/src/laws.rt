// What a first fault says of a program.
ghost use Rattle.std.specs.Prelude.{◌≡◌, ℕ};
ghost use Rattle.gh_core.specs.declared.terms.CoreProgram.{CoreProgram};
ghost use Rattle.gh_core.specs.Typing.{IsTyped};
ghost use Rattle.gh_core_lint.specs.Faults.{Fault, ProgramFails};

/// A law: a typed program has no first fault.
pub fn typed_without_fault()
    ensures { (p : CoreProgram) (at : ℕ) (f : Fault) → ProgramFails p at f → IsTyped p → ⊥ }
{}

/// A law: a program has at most one first fault, at one definition.
pub fn one_first_fault()
    ensures { (p : CoreProgram) (at to : ℕ) (f g : Fault) → ProgramFails p at f → ProgramFails p to g → (at ≡ to) × (f ≡ g) }
{}
