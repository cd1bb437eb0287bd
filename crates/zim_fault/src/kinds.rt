ghost use Rattle.std.specs.Prelude.{◌≡◌};
ghost use Rattle.zim_fault.specs.Kinds.{kind_number, kind_text};

use crate::words::Word;

/// What is wrong with a model or its data. Each kind has a number, from 1 in this order.
#[derive(Clone, Copy, Debug, PartialEq, Eq, Hash)]
pub enum Kind {
    /// A byte begins no token.
    BadByte,
    /// A string isn't closed on its line.
    OpenString,
    /// An include line stands in the sixteenth file of a chain of includes.
    IncludeDeep,
    /// A word that is refused, as `sqrt`, or `infinity` outside a bound.
    Unsupported(Word),
    /// No statement of the language is spelled so.
    Syntax,
    /// Tokens follow the last `;`.
    OpenStatement,
    /// Brackets, `if` and loops nest deeper than 200.
    Deep,
    /// A name isn't declared.
    UnknownName,
    /// A name is declared again, or a second objective.
    Redeclared,
    /// Other brackets or another number of arguments than the name has, or a name of a constraint or of the objective.
    ArgCount,
    /// A variable or `vabs` where a constant is wanted.
    VariableHere,
    /// A product, quotient or power isn't linear.
    NotLinear,
    /// A constraint where a value is wanted, or the reverse.
    NotConstraint,
    /// A value's kind or a tuple's shape is wrong.
    WrongKind,
    /// A divisor is 0.
    DivZero,
    /// A whole number was wanted.
    NotInteger,
    /// An index or a position has no value.
    NoEntry,
    /// An index is given twice.
    Twice,
    /// A least or greatest of nothing.
    EmptyChoice,
    /// A range's step is 0.
    StepZero,
    /// A set or a family of sets passes 1,048,576 members.
    SetSize,
    /// A template of a data file isn't one.
    BadTemplate,
    /// A data line has too few fields.
    ShortLine,
    /// An open quote in a data line, or a field that is no number.
    BadField,
    /// A data line passes 65,536 bytes.
    LongLine,
    /// The model's files together, or a data file, pass 67,108,864 bytes.
    LongFile,
    /// A lower bound is above the upper one.
    BoundsCross,
    /// A real column in a condition or under `vabs`.
    CondReal,
    /// An integer column without two finite bounds in a condition or under `vabs`.
    CondUnbounded,
    /// A row that holds only under a condition has no finite end.
    GuardUnbounded,
    /// A number passes 128 bits.
    Past,
    /// Row 1,000,001.
    TooManyRows,
    /// Column 1,000,001.
    TooManyColumns,
    /// A check is false.
    CheckFailed,
}

/// The number of a kind, from 1 to 34.
pub fn number_of_kind(kind: Kind) -> u8
    ensures { result ≡ kind_number kind }
{
    match kind {
        Kind::BadByte => 1,
        Kind::OpenString => 2,
        Kind::IncludeDeep => 3,
        Kind::Unsupported(_) => 4,
        Kind::Syntax => 5,
        Kind::OpenStatement => 6,
        Kind::Deep => 7,
        Kind::UnknownName => 8,
        Kind::Redeclared => 9,
        Kind::ArgCount => 10,
        Kind::VariableHere => 11,
        Kind::NotLinear => 12,
        Kind::NotConstraint => 13,
        Kind::WrongKind => 14,
        Kind::DivZero => 15,
        Kind::NotInteger => 16,
        Kind::NoEntry => 17,
        Kind::Twice => 18,
        Kind::EmptyChoice => 19,
        Kind::StepZero => 20,
        Kind::SetSize => 21,
        Kind::BadTemplate => 22,
        Kind::ShortLine => 23,
        Kind::BadField => 24,
        Kind::LongLine => 25,
        Kind::LongFile => 26,
        Kind::BoundsCross => 27,
        Kind::CondReal => 28,
        Kind::CondUnbounded => 29,
        Kind::GuardUnbounded => 30,
        Kind::Past => 31,
        Kind::TooManyRows => 32,
        Kind::TooManyColumns => 33,
        Kind::CheckFailed => 34,
    }
}

/// The name of a kind, without the word that `Unsupported` has.
pub fn text_of_kind(kind: Kind) -> &'static [u8]
    ensures { result.now ≡ kind_text kind }
{
    match kind {
        Kind::BadByte => b"BadByte",
        Kind::OpenString => b"OpenString",
        Kind::IncludeDeep => b"IncludeDeep",
        Kind::Unsupported(_) => b"Unsupported",
        Kind::Syntax => b"Syntax",
        Kind::OpenStatement => b"OpenStatement",
        Kind::Deep => b"Deep",
        Kind::UnknownName => b"UnknownName",
        Kind::Redeclared => b"Redeclared",
        Kind::ArgCount => b"ArgCount",
        Kind::VariableHere => b"VariableHere",
        Kind::NotLinear => b"NotLinear",
        Kind::NotConstraint => b"NotConstraint",
        Kind::WrongKind => b"WrongKind",
        Kind::DivZero => b"DivZero",
        Kind::NotInteger => b"NotInteger",
        Kind::NoEntry => b"NoEntry",
        Kind::Twice => b"Twice",
        Kind::EmptyChoice => b"EmptyChoice",
        Kind::StepZero => b"StepZero",
        Kind::SetSize => b"SetSize",
        Kind::BadTemplate => b"BadTemplate",
        Kind::ShortLine => b"ShortLine",
        Kind::BadField => b"BadField",
        Kind::LongLine => b"LongLine",
        Kind::LongFile => b"LongFile",
        Kind::BoundsCross => b"BoundsCross",
        Kind::CondReal => b"CondReal",
        Kind::CondUnbounded => b"CondUnbounded",
        Kind::GuardUnbounded => b"GuardUnbounded",
        Kind::Past => b"Past",
        Kind::TooManyRows => b"TooManyRows",
        Kind::TooManyColumns => b"TooManyColumns",
        Kind::CheckFailed => b"CheckFailed",
    }
}
