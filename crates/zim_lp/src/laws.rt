ghost use Rattle.zim_lp.specs.Correct.{TextsSayPrograms};
ghost use Rattle.zim_lp.specs.Examples.{ExamplesAreRead};

/// The law that the text of each linear program, read in the LP format, says the program: its columns with the sides that are
/// decimals of at most 15 places, its points, its objective and its aim.
///
/// The call does nothing.
pub fn texts_say_programs()
    ensures { TextsSayPrograms }
{}

/// The law that texts which show one rule of the reading each say what the rule says, or nothing.
///
/// The call does nothing.
pub fn examples_are_read()
    ensures { ExamplesAreRead }
{}
