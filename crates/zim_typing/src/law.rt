ghost use Rattle.zim_typing.specs.Law.{
  ConstantBelongs,
  TermBelongs,
  ConditionBelongs,
  ConstraintBelongs,
  BoundBelongs,
  StatementBelongs,
  MadeConstantSuits,
  MadeTermSuits,
  MadeConditionSuits,
  MadeConstraintSuits,
  MadeStatementSuits,
  MadeStatementNests,
  ReadExpressionKeepsNumbers,
  ReadStatementKeepsNumbers,
};

use zim_static::definitions_nest_as_their_statements;
use zim_typed::typed_trees_suit;

/// Nothing to run: the contract is the law that the typed tree that is made of a tree belongs to it, where nothing is marked
/// in the tree.
pub fn typed_trees_belong()
    ensures constant { ConstantBelongs }
    ensures term { TermBelongs }
    ensures condition { ConditionBelongs }
    ensures constraint { ConstraintBelongs }
    ensures bound { BoundBelongs }
    ensures statement { StatementBelongs }
{}

/// Nothing to run: the contract is the law that the typed tree that is made of a tree suits the scope, where nothing is marked
/// in the tree, and that a typed statement can be added to the scope.
pub fn made_trees_suit()
    ensures constant { MadeConstantSuits }
    ensures term { MadeTermSuits }
    ensures condition { MadeConditionSuits }
    ensures constraint { MadeConstraintSuits }
    ensures statement { MadeStatementSuits }
    ensures nesting { MadeStatementNests }
{
    typed_trees_belong();
    typed_trees_suit();
    definitions_nest_as_their_statements();
}

/// Nothing to run: the contract is the law that the numbers in a tree that the grammar reads from tokens are number tokens,
/// where those among the tokens are.
pub fn read_trees_keep_numbers()
    ensures expression { ReadExpressionKeepsNumbers }
    ensures statement { ReadStatementKeepsNumbers }
{}
