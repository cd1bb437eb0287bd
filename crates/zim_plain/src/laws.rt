ghost use Rattle.std.specs.Prelude.{◌≡◌, ◌↔◌, List};
ghost use Rattle.zim_fault.specs.declared.faults.Fault.{Fault};
ghost use Rattle.zim_fault.specs.declared.tokens.Placed.{Placed};
ghost use Rattle.zim_tree.specs.declared.stmt.Stmt.{Stmt};
ghost use Rattle.zim_tree.specs.StatementSpelling.{spelled_of};
ghost use Rattle.zim_plain.specs.Statements.{PlainModel, Statement};
ghost use Rattle.zim_plain.specs.Trees.{tree_of};
ghost use Rattle.zim_plain.specs.Written.{written, Writing, IsWrittenInPlainForm, IsReadInPlainForm};
ghost use Rattle.zim_plain.specs.Answers.{HaveAnswer, HasOneModel, HasOneFault, HasNoFaultAsModel, HasPlaceOfStatements, IsFirstFault, HasOneProgram};

/// The law that statements are those of an accepted model, or have a first fault, so that each has an answer. The call does
/// nothing.
pub fn statements_have_an_answer()
    ensures { (trees : List Stmt) → HaveAnswer trees }
{}

/// The law that statements are those of one model at most, so that what is said of a model whose trees they are is said
/// of the one that they are. The call does nothing.
pub fn statements_are_one_model()
    ensures { (trees : List Stmt) → HasOneModel trees }
{}

/// The law that statements have one first fault at most, so that what [`plain_model`](crate::plain_model) refuses is
/// refused for one reason. The call does nothing.
pub fn statements_have_one_fault()
    ensures { (trees : List Stmt) → HasOneFault trees }
{}

/// The law that the statements of an accepted model have no first fault, so that none are both accepted and refused. The
/// call does nothing.
pub fn a_model_has_no_fault()
    ensures { (model : PlainModel) → HasNoFaultAsModel model }
{}

/// The law that the place of a first fault is one that stands in the statements. The call does nothing.
pub fn a_fault_stands_in_the_statements()
    ensures { (trees : List Stmt) (fault : Fault) → IsFirstFault trees fault → HasPlaceOfStatements trees fault }
{}

/// The law that a model has one program, so that its files are given by the model alone. The call does nothing.
pub fn a_model_has_one_program()
    ensures { (model : PlainModel) → HasOneProgram model }
{}

/// The law that the tree of a statement is spelled as the statement is written, token for token. The call does nothing.
pub fn a_statement_is_spelled_as_written()
    ensures { (statement : Statement) → spelled_of (tree_of statement) ≡ written statement }
{}

/// The law that each statement of plain form is one that some text is: there are tokens that are what is written and that
/// the grammar of the language reads as the statement's tree, places included. The call does nothing.
pub fn a_statement_has_a_writing()
    ensures { (statement : Statement) → Writing statement }
{}

/// The law that tokens are written in plain form exactly where the grammar of the language reads them as the tree of a
/// statement of plain form. The call does nothing.
pub fn plain_form_is_read_as_written()
    ensures { (tokens : List Placed) → (IsWrittenInPlainForm tokens ↔ IsReadInPlainForm tokens) }
{}
