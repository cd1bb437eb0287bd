ghost use Rattle.std.specs.Prelude.{◌≡◌, ◌↔◌, ℕ, List, Ok, Err, Some};
ghost use Rattle.zim_fault.specs.declared.kinds.Kind.{Kind};
ghost use Rattle.zim_lex.specs.Cut.{IsCut, IsStuck, cut};
ghost use Rattle.zim_lex.specs.Includes.{IsInclude, included};
ghost use Rattle.zim_lex.specs.TokenNumbers.{LineNumbersAreKept};
ghost use Rattle.zim_lex.specs.TokensLaw.{HaveTokensOrStick, HaveOneList, StickWithoutTokens, StickOnce};
ghost use Rattle.zim_lex.specs.declared.lines.Line.{Line as OneLine};

/// A line has at most one list of pieces of which none could be longer where it begins, and cutting
/// it from left to right gives that list, or stops exactly where a byte begins no piece.
///
/// A law for those who prove: the call does nothing.
pub fn cutting_is_exact()
    ensures one { (line : List ℕ) (first second : List (List ℕ)) → IsCut line first → IsCut line second → first ≡ second }
    ensures cut { (line : List ℕ) (pieces : List (List ℕ)) → IsCut line pieces ↔ (cut line ≡ Ok pieces) }
    ensures stuck { (line : List ℕ) (kind : Kind) → IsStuck line kind ↔ (cut line ≡ Err kind) }
{}

/// A line includes a file exactly where it is blanks, `include`, blanks, the file's name in double
/// quotes, blanks and maybe a comment.
///
/// A law for those who prove: the call does nothing.
pub fn include_lines_are_exact()
    ensures { (line name : List ℕ) → IsInclude line name ↔ (included line ≡ Some name) }
{}

/// Lines have the tokens of exactly one list, or exactly one first fault, which is a byte that begins no piece; and not
/// both.
///
/// A law for those who prove: the call does nothing.
pub fn lines_have_one_answer()
    ensures some { (lines : List OneLine) → HaveTokensOrStick lines }
    ensures tokens { (lines : List OneLine) → HaveOneList lines }
    ensures either { (lines : List OneLine) → StickWithoutTokens lines }
    ensures stuck { (lines : List OneLine) → StickOnce lines }
{}

/// The numbers among the tokens of lines are number tokens: digits, with a point or an exponent or without.
///
/// A law for those who prove: the call does nothing.
pub fn line_numbers_are_kept()
    ensures { LineNumbersAreKept }
{}
