ghost use Rattle.zim_ground.specs.Law.{ObjectiveKeepsNumber, ObjectiveNamesDeclared, ObjectiveIsOver, ConstraintKeepsTruth, ConstraintNamesDeclared, ConstraintIsOver};

/// Nothing to run: the contract is the law that ground formulas say what the source says.
///
/// At numbers of the columns that agree with an assignment by name and index, the ground term of an objective has the number
/// of the objective, and a ground constraint holds exactly where the constraint is true. A ground term names declared columns
/// alone and divides by no 0. Of a ground constraint this is said, and that it compares as rows do, where the constraint suits
/// its scope.
pub fn ground_formulas_say_what_the_source_says()
    ensures objective { ObjectiveKeepsNumber }
    ensures objective_names { ObjectiveNamesDeclared }
    ensures objective_over { ObjectiveIsOver }
    ensures constraint { ConstraintKeepsTruth }
    ensures constraint_names { ConstraintNamesDeclared }
    ensures constraint_over { ConstraintIsOver }
{}
