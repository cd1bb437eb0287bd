ghost use Rattle.std.specs.Prelude.{◌≡◌, ◌==◌, position, option_map, IsTrue};
ghost use Rattle.std.specs.List.{prefix_len, list_all};
ghost use Rattle.std.specs.Char.{is_ascii_digit};
ghost use Rattle.zim_answer.specs.Gives.{Gives};
ghost use Rattle.zim_read.specs.Causes.{spelled, template_cause};
ghost use Rattle.zim_read.specs.Private as private;
ghost use Rattle.zim_read.specs.Templates as spec;
ghost use Rattle.zim_read.specs.declared.templates.ReadKind.TheVariants as kinds;

use crate::slices::behind;
use crate::stops::TemplateFault;
use memchr::memchr;
use std::alloc::Global;
use zim_fault::Sequence;

/// The last field of a line that a template can name.
const LAST_POSITION: u32 = 65_536;

/// What a template is for.
#[derive(Clone, Copy, Debug, PartialEq, Eq, Drop)]
pub enum ReadKind {
    /// For a set: each line gives tuples.
    Set,
    /// For a parameter with an index: each line gives an index and its value.
    Indexed,
    /// For a parameter without one: a line gives a value.
    Scalar,
}

/// What the field of a line is taken as.
#[derive(Clone, Copy, Debug, PartialEq, Eq, Drop)]
pub enum FieldKind {
    /// A number: a sign or none, and a number as in models.
    Number,
    /// A text, as it stands there.
    Text,
}

/// A field of a template.
#[derive(Clone, Copy, Debug, PartialEq, Eq, Drop)]
pub struct Field {
    /// Which field of a line is taken, from 1 to 65,536.
    pub at: u32,
    pub kind: FieldKind,
}

/// Which fields of a line are taken.
#[derive(Debug, Drop)]
pub enum Template {
    /// The components of a tuple in order, and the value behind them. A set's has no value, a parameter's without an index
    /// no components.
    Fields {
        index: Sequence<Field>,
        value: Option<Field>,
    },
    /// Each field, as a tuple of its own.
    Every(FieldKind),
}

// Whether the byte is a blank of a template.
fn is_blank(byte: u8) -> bool
    ensures { result ≡ spec.is_blank byte }
{
    byte == b' ' || byte == b'\t' || byte == b'\r'
}

// How many bytes at the front are blanks.
fn count_blanks(text: &[u8]) -> usize
    ensures { result ≡ prefix_len spec.is_blank text.now }
{
    text.iter().take_while(|byte| is_blank(**byte)).count()
}

// What follows the blanks at the front.
fn after_blanks(text: &[u8]) -> &[u8]
    ensures { result.now ≡ spec.after_blanks text.now }
{
    text.split_at(count_blanks(text)).1
}

// Whether nothing but blanks is there.
#[tactic(auto, unfolding(crate::specs::Templates::is_blank_only))]
fn is_blank_only(text: &[u8]) -> bool
    ensures { result ≡ spec.is_blank_only text.now }
{
    after_blanks(text).is_empty()
}

// The kind that a letter spells.
#[tactic(auto, unfolding(crate::specs::Templates::kind_of_letter))]
fn kind_of_letter(letter: u8) -> Option<FieldKind>
    ensures { result ≡ spec.kind_of_letter letter }
{
    match letter {
        b'n' => Some(FieldKind::Number),
        b's' => Some(FieldKind::Text),
        _ => None,
    }
}

// The kind that a letter spells, where nothing but blanks follows it.
fn kind_then_blanks(text: &[u8]) -> Option<FieldKind>
    ensures { result ≡ spec.kind_then_blanks text.now }
{
    match text {
        [letter, rest @ ..] if is_blank_only(rest) => kind_of_letter(*letter),
        _ => None,
    }
}

// Whether a plus stands first and nothing but blanks follows it.
fn is_plus_then_blanks(text: &[u8]) -> bool
    ensures { result ≡ spec.is_plus_then_blanks text.now }
{
    !text.is_empty() && text[0] == b'+' && is_blank_only(&text[1..])
}

// The kind of `n+` or `s+`.
#[tactic(auto, unfolding(crate::specs::Templates::every_of))]
fn every_of(text: &[u8]) -> Option<FieldKind>
    ensures { result ≡ spec.every_of text.now }
{
    match after_blanks(text) {
        [letter, rest @ ..] if is_plus_then_blanks(after_blanks(rest)) => kind_of_letter(*letter),
        _ => None,
    }
}

// The number that digits spell, or one past the last position where it is greater.
fn value_of(digits: &[u8]) -> u32
    requires { IsTrue (list_all is_ascii_digit digits.now) }
    ensures { result ≡ private.value_within digits.now }
{
    let mut value = 0;
    for digit in digits {
        value = (value * 10 + (*digit - b'0') as u32).min(LAST_POSITION + 1);
    }
    value
}

// The position that digits spell.
#[tactic(auto, unfolding(crate::specs::Templates::position_of))]
fn position_of(digits: &[u8]) -> Option<u32>
    requires { IsTrue (list_all is_ascii_digit digits.now) }
    ensures { result ≡ spec.position_of digits.now }
{
    let value = value_of(digits);
    if 1 <= value && value <= LAST_POSITION {
        Some(value)
    } else {
        None
    }
}

// How many bytes at the front are digits.
fn count_digits(text: &[u8]) -> usize
    ensures { result ≡ prefix_len is_ascii_digit text.now }
{
    text.iter().take_while(|byte| byte.is_ascii_digit()).count()
}

// The field that a text spells.
fn field_of(text: &[u8]) -> Option<Field>
    ensures { result ≡ spec.field_of text.now }
{
    let text = after_blanks(text);
    let (digits, rest) = text.split_at(count_digits(text));
    let Some(at) = position_of(digits) else {
        return None;
    };
    match kind_then_blanks(after_blanks(rest)) {
        Some(kind) => Some(Field { at, kind }),
        None => None,
    }
}

// The field that a text spells is added.
fn add_field(fields: &mut Sequence<Field>, text: &[u8]) -> Result<(), TemplateFault>
    ensures { Gives (λ _. fields.new) template_cause (spelled (private.with_spelled fields.old text.now)) result }
{
    match field_of(text) {
        Some(field) => {
            fields.push(field)?;
            Ok(())
        }
        None => Err(TemplateFault::BadTemplate),
    }
}

// The fields that a text spells, with commas between them.
fn fields_of(alloc: Global, text: &[u8]) -> Result<Sequence<Field>, TemplateFault>
    ensures { Gives (λ fields. fields) template_cause (spelled (spec.fields_spelled text.now)) result }
{
    let mut fields = Sequence::new(alloc);
    let mut rest = text;
    while let Some(comma) = memchr(b',', rest) {
        add_field(&mut fields, &rest[..comma])?;
        rest = behind(rest, comma);
    }
    add_field(&mut fields, rest)?;
    Ok(fields)
}

// Where the first `>` stands.
fn greater_in(text: &[u8]) -> Option<usize>
    ensures { result ≡ position (λ b. b == 62) text.now }
{
    text.iter().position(|byte| *byte == b'>')
}

// What stands before the first `>`, and what follows it.
fn at_greater(text: &[u8]) -> Option<(&[u8], &[u8])>
    ensures { option_map private.seen_both result ≡ spec.at_greater text.now }
{
    match greater_in(text) {
        Some(at) => Some((text.split_at(at).0, behind(text, at))),
        None => None,
    }
}

// What stands between `<` and `>`, and what follows them.
#[tactic(auto, unfolding(crate::specs::Templates::in_angles))]
fn in_angles(text: &[u8]) -> Option<(&[u8], &[u8])>
    ensures { option_map private.seen_both result ≡ spec.in_angles text.now }
{
    match after_blanks(text) {
        [b'<', rest @ ..] => at_greater(rest),
        _ => None,
    }
}

// The template of a set.
fn set_template(alloc: Global, text: &[u8]) -> Result<Template, TemplateFault>
    ensures { Gives (λ template. template) template_cause (spelled (spec.template_of kinds.Set text.now)) result }
{
    let Some((inner, rest)) = in_angles(text) else {
        return Err(TemplateFault::BadTemplate);
    };
    if !is_blank_only(rest) {
        return Err(TemplateFault::BadTemplate);
    }
    if let Some(kind) = every_of(inner) {
        return Ok(Template::Every(kind));
    }
    Ok(Template::Fields {
        index: fields_of(alloc, inner)?,
        value: None,
    })
}

// The template of a parameter with an index.
fn indexed_template(alloc: Global, text: &[u8]) -> Result<Template, TemplateFault>
    ensures { Gives (λ template. template) template_cause (spelled (spec.template_of kinds.Indexed text.now)) result }
{
    let Some((inner, rest)) = in_angles(text) else {
        return Err(TemplateFault::BadTemplate);
    };
    let index = fields_of(alloc, inner)?;
    let Some(value) = field_of(rest) else {
        return Err(TemplateFault::BadTemplate);
    };
    Ok(Template::Fields {
        index,
        value: Some(value),
    })
}

// The template of a parameter without one.
fn scalar_template(alloc: Global, text: &[u8]) -> Result<Template, TemplateFault>
    ensures { Gives (λ template. template) template_cause (spelled (spec.template_of kinds.Scalar text.now)) result }
{
    match field_of(text) {
        Some(value) => Ok(Template::Fields {
            index: Sequence::new(alloc),
            value: Some(value),
        }),
        None => Err(TemplateFault::BadTemplate),
    }
}

/// The template that a text spells.
///
/// For a set it is fields in `<` and `>`, or `<n+>` or `<s+>`; for a parameter with an index those of the index in `<` and
/// `>` and then that of the value; for one without an index the field of the value. A field is a position from 1 to 65,536,
/// maybe with zeros before it, and `n` for a number or `s` for a text. Commas stand between fields, and blanks may stand
/// anywhere but within a position. `BadTemplate` comes for every other text.
pub fn parse_template(alloc: Global, text: &[u8], kind: ReadKind) -> Result<Template, TemplateFault>
    ensures { Gives (λ template. template) template_cause (spelled (spec.template_of kind text.now)) result }
{
    match kind {
        ReadKind::Set => set_template(alloc, text),
        ReadKind::Indexed => indexed_template(alloc, text),
        ReadKind::Scalar => scalar_template(alloc, text),
    }
}
