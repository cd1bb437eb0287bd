ghost use Rattle.zim_typed.specs.Law.{ConstantNests, ConstantSuits, TermSuits, ConditionSuits, ConstraintSuits, StatementSuits};
ghost use Rattle.zim_typed.specs.Worked.{QuotientsMultiply, RepeatedNamesAreBoundOnce, ChainsAreRanges, BoundsMayPickInfinity, BodiesNameParameters};

/// Nothing to run: the contract is the law that the typed tree that belongs to a tree under a scope suits the scope, for
/// constants, terms, conditions, constraints and statements.
pub fn typed_trees_suit()
    ensures constant { ConstantSuits }
    ensures term { TermSuits }
    ensures condition { ConditionSuits }
    ensures constraint { ConstraintSuits }
    ensures statement { StatementSuits }
{}

/// Nothing to run: the contract shows some expressions with the typed trees that they are, one of each family.
pub fn typed_trees_of_some_expressions()
    ensures term { QuotientsMultiply }
    ensures index { RepeatedNamesAreBoundOnce }
    ensures constraint { ChainsAreRanges }
    ensures bound { BoundsMayPickInfinity }
    ensures definition { BodiesNameParameters }
{}

/// Nothing to run: the contract is the law that a constant nests as deep as the expression that it is.
pub fn constants_nest_as_their_trees()
    ensures { ConstantNests }
{}
