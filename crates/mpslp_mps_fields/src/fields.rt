//! The fields of a line.

ghost use Rattle.std.specs.Prelude.{◌≡◌, ◌≤◌, [], ◌∷◌, map, take, drop, length, not, MatchOption};
ghost use Rattle.std.specs.List.{position, position_or_len};
ghost use Rattle.mpslp_mps_fields.specs.Line.{is_blank, fields};

use crate::line::is_blank;
use arrayvec::ArrayVec;
use bstr::ByteSlice;

/// One more field than any data line has, so that a line with too many fields is found.
pub const FRONT_LEN: usize = 6;

/// The place of the first byte of a text that is neither a space nor a tab. Between fields there are few of these, so each byte is
/// tested.
fn first_of_field(text: &[u8]) -> Option<usize>
    ensures { result ≡ position (λ byte. not (is_blank byte)) text.now }
{
    text.iter().position(|byte| !is_blank(*byte))
}

/// The number of spaces and tabs with which a text begins.
fn blanks_len(text: &[u8]) -> usize
    ensures len { result ≡ position_or_len (λ byte. not (is_blank byte)) text.now }
    ensures within { result ≤ length text.now }
{
    match first_of_field(text) {
        Some(at) => at,
        None => text.len(),
    }
}

/// The length of the field with which a text begins.
fn field_len(text: &[u8]) -> usize
    ensures len { result ≡ position_or_len is_blank text.now }
    ensures within { result ≤ length text.now }
{
    match text.find_byteset(b" \t") {
        Some(at) => at,
        None => text.len(),
    }
}

/// The text from its first field on, after any number of spaces and tabs.
fn from_any_field(text: &[u8]) -> &[u8]
    ensures { result.now ≡ drop (position_or_len (λ byte. not (is_blank byte)) text.now) text.now }
{
    let mut rest = text;
    while let [b' ', b' ', more @ ..] = rest {
        rest = more;
    }
    &rest[blanks_len(rest)..]
}

/// The text from its first field on. Mostly there are two spaces before it.
fn from_field(text: &[u8]) -> &[u8]
    ensures { result.now ≡ drop (position_or_len (λ byte. not (is_blank byte)) text.now) text.now }
{
    match text {
        [b' ', b' ', byte, ..] if !is_blank(*byte) => &text[2..],
        _ => from_any_field(text),
    }
}

/// The first field of a text and the rest after it; `None` if the text has no field.
fn next_field<'a>(text: &'a [u8]) -> Option<(&'a [u8], &'a [u8])>
    ensures { MatchOption result (fields text.now ≡ []) (λ found. fields text.now ≡ found.0.now ∷ fields found.1.now) }
{
    let text = from_field(text);
    if text.is_empty() {
        return None;
    }
    Some(text.split_at(field_len(text)))
}

/// The first fields of a line, at most [`FRONT_LEN`]: enough to determine its shape. Fields are separated by spaces and
/// tabs.
pub fn front_fields<'a>(line: &'a [u8]) -> ArrayVec<&'a [u8], FRONT_LEN>
    ensures { map (λ field. field.now) result.items ≡ take FRONT_LEN (fields line.now) }
{
    let mut found = ArrayVec::new();
    let mut rest = line;
    for _ in 0..FRONT_LEN {
        let Some((field, after)) = next_field(rest) else {
            break;
        };
        found.push(field);
        rest = after;
    }
    found
}
