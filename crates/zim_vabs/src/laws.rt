ghost use Rattle.std.specs.Prelude.{ℕ, ◌≡◌, IsTrue, length, Ok};
ghost use Rattle.zim_rational.specs.Rounding.{absolute};
ghost use Rattle.zim_linear.specs.Forms.{LinearForm};
ghost use Rattle.zim_formula.specs.declared.ground.GTerm.{GTerm as Ground};
ghost use Rattle.zim_formula.specs.Ground.{term_number};
ghost use Rattle.zim_formula.specs.GroundRules.{is_term_over};
ghost use Rattle.zim_rows.specs.declared.rows.RowFrom.{RowFrom as Source};
ghost use Rattle.zim_rows.specs.System.{LinearSystem};
ghost use Rattle.zim_rows.specs.Points.{assigned};
ghost use Rattle.zim_rows.specs.Extending.{IsValid};
ghost use Rattle.zim_vabs.specs.Terms.{makes_term, makes_absolute};
ghost use Rattle.zim_vabs.specs.Meaning.{FormMade};

/// The law that what a term over the columns of a system makes is a form that is the term's number at each point: each
/// point of the system before is the beginning of exactly one of the system after, which is covered where it was.
///
/// The call does nothing.
pub fn terms_are_forms()
    ensures { (before : LinearSystem) (statement : ℕ) (t : Ground) (form : LinearForm) (after : LinearSystem) →
        IsValid before → IsTrue (is_term_over (length before.columns) t) →
        makes_term statement t before ≡ Ok (form, after) →
        FormMade before before (λ p. term_number (assigned p) t) form after }
{}

/// The same law of the absolute value of a term.
///
/// The call does nothing.
pub fn absolute_values_are_forms()
    ensures { (before : LinearSystem) (source : Source) (t : Ground) (form : LinearForm) (after : LinearSystem) →
        IsValid before → IsTrue (is_term_over (length before.columns) t) →
        makes_absolute source t before ≡ Ok (form, after) →
        FormMade before before (λ p. absolute (term_number (assigned p) t)) form after }
{}
