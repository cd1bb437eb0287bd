ghost use Rattle.std.specs.Prelude.{ℕ, List};
ghost use Rattle.zim_gate.specs.Folder.{HeldFiles as Held};
ghost use Rattle.zim_build.specs.Model.{Model};
ghost use Rattle.zim_build.specs.ExactlyOne.{IsOneOfThree, IsOneAtMost, NamesOneModel, HasOneFirstFault, MissesOneFile};
ghost use Rattle.zim_build.specs.Program.{MakesOneProgram};

/// The law that a named file is a model, or has a first fault, or misses a file. The call does nothing.
pub fn a_name_is_one_of_three()
    ensures { (files : Held) (name : List ℕ) → IsOneOfThree files name }
{}

/// The law that a named file is at most one of these: a model has no first fault, and neither misses a file. The call does
/// nothing.
pub fn a_name_is_only_one_of_three()
    ensures { (files : Held) (name : List ℕ) → IsOneAtMost files name }
{}

/// The law that a named file is one model at most, for which the same files are opened. The call does nothing.
pub fn a_name_is_one_model()
    ensures { (files : Held) (name : List ℕ) → NamesOneModel files name }
{}

/// The law that a named file has one first fault at most, so that it can't be refused for two kinds, at two lines or in two
/// files, nor behind two texts. The call does nothing.
pub fn a_name_has_one_fault()
    ensures { (files : Held) (name : List ℕ) → HasOneFirstFault files name }
{}

/// The law that a named file misses one file at most. The call does nothing.
pub fn a_name_misses_one_file()
    ensures { (files : Held) (name : List ℕ) → MissesOneFile files name }
{}

/// The law that a model has one program and one list of declared columns, so that its files are given by the model alone.
/// The call does nothing.
pub fn a_model_has_one_program()
    ensures { (model : Model) → MakesOneProgram model }
{}
