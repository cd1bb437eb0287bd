ghost use Rattle.zim_tree.specs.MadeLaw.{TightIsMade, TightStatementIsMade};

/// Nothing to run: the contract is the law that each expression and each statement that the grammar derives
/// is made of its parts: it has as many of them as its rule wants, each is made of its parts in turn, and
/// each word and operator is one that the rule names.
pub fn tight_trees_are_made()
    ensures expressions { TightIsMade }
    ensures statements { TightStatementIsMade }
{}
