ghost use Rattle.std.specs.Prelude.{◌≡◌, IsTrue, length, Ok};
ghost use Rattle.zim_formula.specs.declared.ground.GCond.{GCond as Ground};
ghost use Rattle.zim_formula.specs.Ground.{condition_holds};
ghost use Rattle.zim_formula.specs.GroundRules.{is_condition_over};
ghost use Rattle.zim_logic_rows.specs.declared.Literal.{Literal};
ghost use Rattle.zim_rows.specs.declared.rows.RowFrom.{RowFrom as Source};
ghost use Rattle.zim_rows.specs.System.{LinearSystem};
ghost use Rattle.zim_rows.specs.Points.{assigned};
ghost use Rattle.zim_rows.specs.Extending.{IsValid};
ghost use Rattle.zim_cond.specs.Conditions.{makes_condition};
ghost use Rattle.zim_cond.specs.Meaning.{LiteralMade};

/// The law that what a condition over the columns of a system makes is a literal that is the condition's truth at each
/// point: each point of the system before is the beginning of exactly one of the system after, which is covered where it
/// was.
///
/// The call does nothing.
pub fn conditions_are_literals()
    ensures { (before : LinearSystem) (source : Source) (c : Ground) (l : Literal) (after : LinearSystem) →
        IsValid before → IsTrue (is_condition_over (length before.columns) c) →
        makes_condition source c before ≡ Ok (l, after) →
        LiteralMade before before (λ p. condition_holds (assigned p) c) l after }
{}
