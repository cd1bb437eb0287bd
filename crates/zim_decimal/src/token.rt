// Number tokens: where their parts stand, and whether a text is one.
ghost use Rattle.std.specs.Prelude.{◌≡◌, position};
ghost use Rattle.std.specs.List.{position_or_len, list_all};
ghost use Rattle.std.specs.Char.{is_ascii_digit};
ghost use Rattle.std.specs.Str.Parse.{without_leading_sign};
ghost use Rattle.zim_decimal.specs.Token as token;

// Whether the text is a number token.
pub(crate) fn is_number(text: &[u8]) -> bool
    ensures { result ≡ token.is_number_token text.now }
{
    let mark = mark_at(text);
    is_mantissa(&text[..mark]) && is_exponent(&text[mark..])
}

// Where the mark of an exponent stands, or the text's length.
pub(crate) fn mark_at(text: &[u8]) -> usize
    ensures { result ≡ position_or_len token.is_mark text.now }
{
    match first_mark(text) {
        Some(i) => i,
        None => text.len(),
    }
}

// Where the first `e` or `E` stands.
fn first_mark(text: &[u8]) -> Option<usize>
    ensures { result ≡ position token.is_mark text.now }
{
    text.iter().position(|b| *b == b'e' || *b == b'E')
}

// Where the point stands, or the text's length.
pub(crate) fn point_at(text: &[u8]) -> usize
    ensures { result ≡ position_or_len token.is_point text.now }
{
    match first_point(text) {
        Some(i) => i,
        None => text.len(),
    }
}

// Where the first point stands.
fn first_point(text: &[u8]) -> Option<usize>
    ensures { result ≡ position token.is_point text.now }
{
    text.iter().position(|b| *b == b'.')
}

// Whether digits stand before a point or where there is none, or behind it.
fn is_mantissa(text: &[u8]) -> bool
    ensures { result ≡ token.is_mantissa text.now }
{
    let point = point_at(text);
    if point == text.len() {
        return are_digits(text);
    }
    are_all_digits(&text[..point]) && are_digits(&text[point + 1..])
}

// Whether there is no mark, or digits stand behind it and a sign or none.
fn is_exponent(text: &[u8]) -> bool
    ensures { result ≡ token.is_exponent text.now }
{
    text.is_empty() || are_digits(without_sign(&text[1..]))
}

// The text without a plus or a minus before it.
pub(crate) fn without_sign(text: &[u8]) -> &[u8]
    ensures { result.now ≡ without_leading_sign text.now }
{
    if !text.is_empty() && (text[0] == b'-' || text[0] == b'+') {
        &text[1..]
    } else {
        text
    }
}

// Whether the text is one digit or more.
fn are_digits(text: &[u8]) -> bool
    ensures { result ≡ token.are_digits text.now }
{
    !text.is_empty() && are_all_digits(text)
}

// Whether each byte is a digit.
fn are_all_digits(text: &[u8]) -> bool
    ensures { result ≡ list_all is_ascii_digit text.now }
{
    text.iter().all(|b| b.is_ascii_digit())
}
