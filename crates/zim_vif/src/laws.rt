ghost use Rattle.std.specs.Prelude.{ℕ, ◌≡◌, IsTrue, length, Ok};
ghost use Rattle.zim_formula.specs.declared.ground.GCon.{GCon as Ground};
ghost use Rattle.zim_formula.specs.Ground.{constraint_holds};
ghost use Rattle.zim_formula.specs.GroundRules.{is_constraint_over};
ghost use Rattle.zim_rows.specs.System.{LinearSystem};
ghost use Rattle.zim_rows.specs.Points.{assigned};
ghost use Rattle.zim_rows.specs.Extending.{IsValid};
ghost use Rattle.zim_vif.specs.Constraints.{Guard, makes_constraint};
ghost use Rattle.zim_vif.specs.Meaning.{IsGuardOf, AskedUnder};

/// The law that what a constraint over the columns of a system makes under a guard asks it where the guard is on: a
/// point of the system before is the beginning of a point of the system after exactly where the guard is off or the
/// constraint is true, and then of exactly one. The system after is covered where the one before was.
///
/// The call does nothing.
pub fn constraints_are_asked()
    ensures { (before : LinearSystem) (statement : ℕ) (guard : Guard) (c : Ground) (after : LinearSystem) →
        IsValid before → IsGuardOf before guard → IsTrue (is_constraint_over (length before.columns) c) →
        makes_constraint statement c guard before ≡ Ok (tt, after) →
        AskedUnder before guard (λ p. constraint_holds (assigned p) c) after }
{}
