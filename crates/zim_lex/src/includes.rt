ghost use Rattle.std.specs.Prelude.{◌≡◌, option_map};
ghost use Rattle.zim_lex.specs.Includes as includes;

use crate::numbers::after;
use crate::pieces::count_blanks;
use memchr::memchr;
use zim_fault::{Word, word_text};

/// The bytes after the blanks at the front.
fn after_blanks(bytes: &[u8]) -> &[u8]
    ensures { result.now ≡ includes.after_blanks bytes.now }
{
    after(bytes, count_blanks(bytes))
}

/// Whether a line ends here, maybe with a comment.
fn ends_line(bytes: &[u8]) -> bool
    ensures { result ≡ includes.ends_line bytes.now }
{
    bytes.is_empty() || bytes[0] == b'#'
}

/// The name before the first double quote, where a line ends after that.
fn closed_name(bytes: &[u8]) -> Option<&[u8]>
    ensures { option_map (λ name. name.now) result ≡ includes.alone (includes.at_quote bytes.now) }
{
    match memchr(b'"', bytes) {
        Some(end) => {
            let (name, quote) = bytes.split_at(end);
            if ends_line(after_blanks(after(quote, 1))) {
                Some(name)
            } else {
                None
            }
        }
        None => None,
    }
}

/// The name between double quotes, where a line ends after them.
fn quoted_name(bytes: &[u8]) -> Option<&[u8]>
    ensures { option_map (λ name. name.now) result ≡ includes.quoted_name bytes.now }
{
    if bytes.starts_with(b"\"") {
        closed_name(after(bytes, 1))
    } else {
        None
    }
}

/// The name of the file that an include line names, or `None` where the line is none.
pub fn included(line: &[u8]) -> Option<&[u8]>
    ensures { option_map (λ name. name.now) result ≡ includes.included line.now }
{
    let word = word_text(Word::WInclude);
    let first = after_blanks(line);
    if first.starts_with(word) {
        quoted_name(after_blanks(after(first, word.len())))
    } else {
        None
    }
}
