ghost use Rattle.std.specs.Prelude.{◌≡◌, ◌&&◌, ◌++◌, Bool, IsTrue, List, length, drop, All};
ghost use Rattle.zim_rational.specs.Rational.{Rational};
ghost use Rattle.zim_rows.specs.Factors.{IsLeastFactor, factor_of};
ghost use Rattle.zim_rows.specs.declared.rows.Column.{Column as GivenColumn};
ghost use Rattle.zim_rows.specs.declared.rows.GivenRow.{GivenRow as OneRow};
ghost use Rattle.zim_rows.specs.System.{LinearSystem, IsSystem, Extends, with_column, with_row};
ghost use Rattle.zim_rows.specs.Points.{IsSystemPoint, first_numbers, system_objective_at};
ghost use Rattle.zim_rows.specs.Covered.{IsCovered};
ghost use Rattle.zim_rows.specs.Steps.{Step, with_step};
ghost use Rattle.zim_rows.specs.Extending.{IsValid, ExtendsOnce, NarrowsTo, Widens, Fits, FitsOnce, HasShortSides, IsCoveredStep};

/// The law that the factor of numbers makes them decimals of at most 15 places, and that whatever else does so is a
/// multiple of it.
///
/// The call does nothing.
pub fn factors_are_least()
    ensures { (numbers : List Rational) → IsLeastFactor numbers (factor_of numbers) }
{}

/// The law that a system that grew only has points that begin with a point of the system as it was: the numbers of the
/// columns that were there before are such a point, and the objective is the same at both.
///
/// The call does nothing.
pub fn later_points_begin_with_earlier_ones()
    ensures points { (later earlier : LinearSystem) (numbers : List Rational) →
        IsSystem earlier.columns earlier.rows earlier.objective → Extends later earlier → IsSystemPoint later numbers →
        IsSystemPoint earlier (first_numbers earlier numbers) }
    ensures objective { (later earlier : LinearSystem) (numbers : List Rational) →
        IsSystem earlier.columns earlier.rows earlier.objective → Extends later earlier →
        system_objective_at earlier (first_numbers earlier numbers) ≡ system_objective_at later numbers }
{}

/// The law that encoding steps can follow each other: where a point of the first system is the beginning of exactly one
/// point of the middle one, and this one that of exactly one point of the last, it is the beginning of exactly one point
/// of the last. So what two steps ask is asked by both together.
///
/// The call does nothing.
pub fn steps_follow_each_other()
    ensures once { (last middle first : LinearSystem) (p : List Rational) (early : ExtendsOnce middle first p) →
        IsValid middle → Extends last middle → Extends middle first → ExtendsOnce last middle early.one → ExtendsOnce last first p }
    ensures narrows { (last middle first : LinearSystem) (one other : List Rational → Bool) →
        IsValid middle → NarrowsTo middle first one → NarrowsTo last middle (λ p. other (first_numbers first p)) →
        NarrowsTo last first (λ p. one p && other p) }
    ensures widens { (last middle first : LinearSystem) →
        IsValid middle → Widens middle first → Widens last middle → Widens last first }
{}

/// The law that the points after a step are those before it, each with numbers behind it that fit the step.
///
/// The call does nothing.
pub fn points_go_on_by_what_fits()
    ensures joined { (system : LinearSystem) (step : Step) (p vs : List Rational) →
        IsValid system → IsSystemPoint system p → Fits step p vs → IsSystemPoint (with_step system step) (p ++ vs) }
    ensures fits { (system : LinearSystem) (step : Step) (q : List Rational) →
        IsSystemPoint (with_step system step) q → Fits step (first_numbers system q) (drop (length system.columns) q) }
{}

/// The law that a step narrows a system to what is asked where exactly one list of numbers fits it behind each point
/// that keeps this, and none behind another point; and that it widens the system where nothing is asked.
///
/// The call does nothing.
pub fn steps_that_fit_once_narrow()
    ensures narrows { (system : LinearSystem) (step : Step) (test : List Rational → Bool) → IsValid system →
        ((p : List Rational) → IsSystemPoint system p → IsTrue (test p) → FitsOnce step p) →
        ((p vs : List Rational) → IsSystemPoint system p → Fits step p vs → IsTrue (test p)) →
        NarrowsTo (with_step system step) system test }
    ensures widens { (system : LinearSystem) (step : Step) → IsValid system →
        ((p : List Rational) → IsSystemPoint system p → FitsOnce step p) → Widens (with_step system step) system }
{}

/// The law that a covered system stays covered with a step that covers its own columns, and so with columns that have
/// short sides and with any rows.
///
/// The call does nothing.
pub fn covered_systems_stay_covered()
    ensures step { (system : LinearSystem) (step : Step) →
        IsCovered system → IsCoveredStep system step → IsCovered (with_step system step) }
    ensures short { (system : LinearSystem) (step : Step) →
        IsCovered system → All HasShortSides step.columns → IsCovered (with_step system step) }
    ensures column { (system : LinearSystem) (column : GivenColumn) →
        IsCovered system → HasShortSides column → IsCovered (with_column system column) }
    ensures row { (system : LinearSystem) (row : OneRow) → IsCovered system → IsCovered (with_row system row) }
{}
