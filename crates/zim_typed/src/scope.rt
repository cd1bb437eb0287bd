/// What a name is after the statements before.
#[derive(Clone, Copy, Debug, PartialEq, Eq)]
pub enum Declared {
    /// A set; the flag says that it is an indexed one, which is used with brackets.
    Set(bool),
    /// A parameter; the flag says that it is used with brackets.
    Parameter(bool),
    /// A variable; the flag says that it is used with brackets.
    Variable(bool),
    /// A function, with the number of its parameters and its full nesting.
    Function(usize, u64),
    Constraint,
    Objective,
}
