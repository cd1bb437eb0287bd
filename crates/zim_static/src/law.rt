ghost use Rattle.zim_static.specs.Law.{ConstantCalls, DefinitionNests, DefinitionKeepsNesting};

use zim_typed::constants_nest_as_their_trees;

/// Nothing to run: the contract is the law that a typed statement nests as deep as the statement that it comes from, together
/// with the functions that both call. So what has no static fault nests within the limit of [`declare`](crate::Scope::declare).
pub fn definitions_nest_as_their_statements()
    ensures constant { ConstantCalls }
    ensures definition { DefinitionNests }
    ensures kept { DefinitionKeepsNesting }
{
    constants_nest_as_their_trees();
}
