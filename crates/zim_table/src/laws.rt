ghost use Rattle.std.specs.Prelude.{◌≡◌, ℕ, List, Some};
ghost use Rattle.zim_gate.specs.Counts.{IsFrontOf};
ghost use Rattle.zim_table.specs.Correct.{TextsSayNames};
ghost use Rattle.zim_table.specs.Ended.{EndsInEnd};
ghost use Rattle.zim_table.specs.Examples.{ExamplesAreRead};
ghost use Rattle.zim_table.specs.Reader.{Table, table};

/// The law that a first part of a table that ends in the line `end` is the whole table: whoever finds a table with
/// this last line, of which he knows that it was put from its first byte on, has all of it.
///
/// The call does nothing.
pub fn an_ended_table_is_whole()
    ensures { (text front : List ℕ) (said : Table) → table text ≡ Some said → IsFrontOf front text → EndsInEnd front → front ≡ text }
{}

/// The law that the text of each linear program with its declared columns and the names of its statements is the table of
/// them: which column of the files has which name and tuple, and the factors of the objective.
///
/// The call does nothing.
pub fn texts_say_names()
    ensures { TextsSayNames }
{}

/// The law that texts which show one rule of the reading each are the table that the rule says, or none.
///
/// The call does nothing.
pub fn examples_are_read()
    ensures { ExamplesAreRead }
{}
