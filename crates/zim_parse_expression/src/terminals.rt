//! The terminals that a rule of expressions names one by one.

ghost use Rattle.std.specs.Prelude.{◌≡◌};
ghost use Rattle.zim_parse_expression.specs.Outcome.{terminal_test};

use zim_tree::Class;

/// A terminal that a rule looks for by itself, and not as one of several that it doesn't tell apart.
#[derive(Clone, Copy)]
pub enum Terminal {
    /// `(`
    LeftParen,
    /// `)`
    RightParen,
    /// `]`
    RightBracket,
    /// `}`
    RightBrace,
    /// `,`
    Comma,
    /// `<`
    Less,
    /// `>`
    Greater,
    /// `in`
    In,
    /// `then`
    Then,
    /// `else`
    Else,
    /// `end`
    End,
    /// `by`
    By,
    /// `!`
    Exclamation,
    /// `not`
    Not,
    /// `forall`
    Forall,
}

/// Whether tokens of the found class are this terminal.
pub(crate) fn is_terminal(wanted: Terminal, found: Class) -> bool
    ensures { result ≡ terminal_test wanted found }
{
    match wanted {
        Terminal::LeftParen => matches!(found, Class::LeftParen),
        Terminal::RightParen => matches!(found, Class::RightParen),
        Terminal::RightBracket => matches!(found, Class::RightBracket),
        Terminal::RightBrace => matches!(found, Class::RightBrace),
        Terminal::Comma => matches!(found, Class::Comma),
        Terminal::Less => matches!(found, Class::Less),
        Terminal::Greater => matches!(found, Class::Greater),
        Terminal::In => matches!(found, Class::In),
        Terminal::Then => matches!(found, Class::Then),
        Terminal::Else => matches!(found, Class::Else),
        Terminal::End => matches!(found, Class::End),
        Terminal::By => matches!(found, Class::By),
        Terminal::Exclamation => matches!(found, Class::Exclamation),
        Terminal::Not => matches!(found, Class::Not),
        Terminal::Forall => matches!(found, Class::Forall),
    }
}
