//! What the grammar sees of a token.

ghost use Rattle.std.specs.Prelude.{◌≡◌, true};
ghost use Rattle.std.specs.List.{list_all};
ghost use Rattle.std.specs.Option.{option_map_or};
ghost use Rattle.mpslp_types.specs.Name.{is_like_exponent, is_lp_byte, same_bytes, marker};
ghost use Rattle.mpslp_lp_tokens.specs.Laws.{HasLpBytes};
ghost use Rattle.mpslp_lp_grammar.specs.Terminal.{name_fault};
ghost use Rattle.mpslp_lp_grammar.specs.TerminalToken.{IsTerminalOf, IsTerminalOfNumber, IsTerminalOfWord};

use crate::signs::Sign;
use mpslp_decimal::Decimal;
use mpslp_lines::value_of;
use mpslp_lp_tokens::{Relation, SectionWord, TokenKind, WordClass, class_of};
use mpslp_model::{FaultKind, MAX_NAME_LEN, Name, NameFault};

/// What the grammar sees of a token; the text of a name is separate.
#[derive(Clone, Copy)]
pub enum TerminalKind {
    /// It opens a section.
    Opens(SectionWord),
    /// A name.
    Name,
    /// A number.
    Number(Decimal),
    /// A sign.
    Sign(Sign),
    /// A relation.
    Compares(Relation),
    /// A colon.
    Colon,
    /// `inf` or `infinity`.
    Infinity,
    /// `free`.
    Free,
    /// A token that no rule accepts.
    Other,
}

/// What the grammar sees of a token, and its bytes.
#[derive(Clone, Copy)]
pub struct TerminalToken<'a> {
    /// What the grammar sees of it.
    pub kind: TerminalKind,
    /// Its bytes.
    pub text: &'a [u8],
}

/// Whether a number directly before the name would continue into it, as in `2e1`.
fn is_like_exponent(name: &[u8]) -> bool
    ensures { result ≡ is_like_exponent name.now }
{
    match name {
        [] => false,
        [byte] => *byte == b'e' || *byte == b'E',
        [byte, next, ..] => (*byte == b'e' || *byte == b'E') && next.is_ascii_digit(),
    }
}

/// The first error of a name.
fn name_fault(name: &[u8]) -> Option<FaultKind>
    ensures { result ≡ name_fault name.now }
{
    match Name::check(name) {
        Ok(()) => {
            if is_like_exponent(name) {
                Some(FaultKind::NameLikeExponent)
            } else {
                None
            }
        }
        // `check` does not allocate.
        Err(NameFault::NameLength | NameFault::OutOfMemory) => Some(FaultKind::NameLength),
        Err(NameFault::NameByte) => Some(FaultKind::NameByte),
        Err(NameFault::NameMarker) => Some(FaultKind::NameMarker),
    }
}

/// Whether the text is `'MARKER'`, which is not a name.
fn is_marker(name: &[u8]) -> bool
    ensures { result ≡ same_bytes name.now marker }
{
    name == b"'MARKER'".as_slice()
}

/// The first error of a name whose bytes LP names may have.
#[inline(always)]
fn lp_name_fault(name: &[u8]) -> Option<FaultKind>
    requires { list_all is_lp_byte name.now ≡ true }
    ensures { result ≡ name_fault name.now }
{
    if name.is_empty() || MAX_NAME_LEN < name.len() {
        return Some(FaultKind::NameLength);
    }
    if is_marker(name) {
        return Some(FaultKind::NameMarker);
    }
    if is_like_exponent(name) {
        return Some(FaultKind::NameLikeExponent);
    }
    None
}

/// What the grammar sees of a word whose bytes LP names may have, or its lexical error.
#[inline(always)]
fn classify_lp_word(text: &[u8]) -> Result<TerminalKind, FaultKind>
    requires { list_all is_lp_byte text.now ≡ true }
    ensures { IsTerminalOfWord text.now result }
{
    match class_of(text) {
        WordClass::Name => match lp_name_fault(text) {
            Some(kind) => Err(kind),
            None => Ok(TerminalKind::Name),
        },
        _ => classify_word(text),
    }
}

/// What the grammar sees of a word, or its lexical error.
#[inline(always)]
fn classify_word(text: &[u8]) -> Result<TerminalKind, FaultKind>
    ensures { IsTerminalOfWord text.now result }
{
    match class_of(text) {
        WordClass::Opens(word) => Ok(TerminalKind::Opens(word)),
        WordClass::Infinity => Ok(TerminalKind::Infinity),
        WordClass::Free => Ok(TerminalKind::Free),
        WordClass::Sos => Err(FaultKind::Sos),
        WordClass::Name => match name_fault(text) {
            Some(kind) => Err(kind),
            None => Ok(TerminalKind::Name),
        },
    }
}

/// What the grammar sees of a number, or its error.
#[inline(always)]
fn classify_number(literal: &[u8]) -> Result<TerminalKind, FaultKind>
    ensures { IsTerminalOfNumber literal.now result }
{
    match value_of(literal) {
        Ok(value) => Ok(TerminalKind::Number(value)),
        Err(kind) => Err(kind),
    }
}

/// What the grammar sees of a token, or its lexical error.
///
/// # Errors
///
/// Of a word that is a name `NameLength`, `NameByte`, `NameMarker` or `NameLikeExponent`, of a number `BadNumber`, `LongNumber`,
/// `TooManyDigits` or `ExponentRange`; of what belongs to formats that are not read `Sos`, `Indicator` or `Quadratic`.
#[inline(always)]
pub fn classify(kind: TokenKind, text: &[u8]) -> Result<TerminalKind, FaultKind>
    ensures { IsTerminalOf kind text.now result }
{
    match kind {
        TokenKind::Word => classify_word(text),
        TokenKind::Number => classify_number(text),
        TokenKind::Less => Ok(TerminalKind::Compares(Relation::AtMost)),
        TokenKind::Greater => Ok(TerminalKind::Compares(Relation::AtLeast)),
        TokenKind::Equal => Ok(TerminalKind::Compares(Relation::EqualTo)),
        TokenKind::Colon => Ok(TerminalKind::Colon),
        TokenKind::Plus => Ok(TerminalKind::Sign(Sign::Plus)),
        TokenKind::Minus => Ok(TerminalKind::Sign(Sign::Minus)),
        TokenKind::DoubleColon => Err(FaultKind::Sos),
        TokenKind::Arrow => Err(FaultKind::Indicator),
        TokenKind::OpenBracket | TokenKind::CloseBracket | TokenKind::Caret | TokenKind::Star =>
            Err(FaultKind::Quadratic),
        TokenKind::Period | TokenKind::Unknown => Ok(TerminalKind::Other),
    }
}

/// What the grammar sees of a token, or its lexical error. It does what [`classify`] does, but does not go over the bytes of a
/// word again, which a token of a line has been found to have.
///
/// # Errors
///
/// Those of [`classify`].
#[inline(always)]
pub fn classify_found(kind: TokenKind, text: &[u8]) -> Result<TerminalKind, FaultKind>
    requires { HasLpBytes kind text.now }
    ensures { IsTerminalOf kind text.now result }
{
    match kind {
        TokenKind::Word => classify_lp_word(text),
        _ => classify(kind, text),
    }
}
