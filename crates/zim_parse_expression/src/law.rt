ghost use Rattle.zim_parse_expression.specs.GroupingLaw.{OperandsAreNoSums, SubtractionGroupsLeft};
ghost use Rattle.zim_parse_expression.specs.Law.{OneTree, ParserReads};

/// Nothing to run: the contract is the law that a list of tokens spells at most one tight expression, one
/// that the grammar derives from some tokens, but for its places.
pub fn expressions_are_unique()
    ensures { OneTree }
{}

/// Nothing to run: the contract is the law that the parser reads a list of tokens as an expression
/// exactly where the grammar does.
pub fn parser_reads_expressions()
    ensures { ParserReads }
{}

/// Nothing to run: the contract is the law that subtraction groups to the left: no operand of a sum is
/// a sum without parentheses, which is shown at `x - y - 1 <= 2`.
pub fn subtraction_groups_left()
    ensures operands { OperandsAreNoSums }
    ensures shown { SubtractionGroupsLeft }
{}
