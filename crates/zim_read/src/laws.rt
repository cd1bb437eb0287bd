ghost use Rattle.zim_read.specs.Examples.{TemplatesAreSpelled, LinesAreCut};

/// The law that texts which show one rule of templates each spell what the rule says, or nothing, and that lines which show one
/// rule of data files hold what the rule says.
///
/// The call does nothing.
pub fn examples_are_read()
    ensures templates { TemplatesAreSpelled }
    ensures lines { LinesAreCut }
{}
