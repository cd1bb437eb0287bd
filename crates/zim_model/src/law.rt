ghost use Rattle.zim_model.specs.Law.{StatementsAreSaid};

use zim_ground::ground_formulas_say_what_the_source_says;
use zim_vabs::terms_are_forms;
use zim_vif::constraints_are_asked;

/// Nothing to run: the contract is the law that the columns, rows and objective which statements make say these statements.
///
/// The system is covered; each of its points, cut down to the declared columns, satisfies the statements; all fractions that
/// satisfy them come from exactly one point; and the objective at a point is the number of theirs. Each constraint suits some
/// scope, and no statement is a second objective.
pub fn systems_say_their_statements()
    ensures { StatementsAreSaid }
{
    ground_formulas_say_what_the_source_says();
    constraints_are_asked();
    terms_are_forms();
}
