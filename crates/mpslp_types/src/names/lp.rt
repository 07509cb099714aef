//! Which names are legal in LP.

ghost use Rattle.std.specs.Prelude.{◌≡◌, map};
ghost use Rattle.std.specs.List.{list_all, list_any};
ghost use Rattle.mpslp_types.specs.Name.{is_upper, is_lp_byte, lower_byte, same_bytes, is_reserved, is_like_exponent, begins_a_number, is_lp_name};
ghost use Rattle.mpslp_types.specs.NameTests.{begins_reserved, may_be_reserved};
ghost use Rattle.mpslp_decimal.specs.Literal.{is_digit};

use crate::laws::each_name_is_legal;
use crate::names::Name;
use crate::names::byte_sets::{ByteSet, has_all};

/// Each byte that LP names may have, at the index of its value; `-` at all other indices.
static LP_BYTES: [u8; 256] = *b"\
    --------------------------------\
    -!\"#$%&'()--,-./0123456789-;---?\
    @ABCDEFGHIJKLMNOPQRSTUVWXYZ----_\
    `abcdefghijklmnopqrstuvwxyz{|}~-\
    --------------------------------\
    --------------------------------\
    --------------------------------\
    --------------------------------";

/// The reserved words of LP, in lower case.
const RESERVED_WORDS: [&[u8]; 31] = [
    b"min",
    b"minimize",
    b"minimum",
    b"max",
    b"maximize",
    b"maximum",
    b"subject",
    b"such",
    b"st",
    b"s.t.",
    b"st.",
    b"bound",
    b"bounds",
    b"general",
    b"generals",
    b"gen",
    b"integer",
    b"integers",
    b"int",
    b"binary",
    b"binaries",
    b"bin",
    b"semi",
    b"semis",
    b"sos",
    b"sos1",
    b"sos2",
    b"free",
    b"inf",
    b"infinity",
    b"end",
];

/// Whether the byte is an upper-case letter.
fn is_upper(byte: u8) -> bool
    ensures { result ≡ is_upper byte }
{
    65 <= byte && byte <= 90
}

/// Whether the byte is a digit.
fn is_digit(byte: u8) -> bool
    ensures { result ≡ is_digit byte }
{
    48 <= byte && byte <= 57
}

/// Whether the byte is allowed in LP names: a letter, a digit or one of `!"#$%&()/,.;?@_'{}|~` and a back quote.
#[inline(always)]
pub fn is_lp_byte(byte: u8) -> bool
    ensures { result ≡ is_lp_byte byte }
{
    LP_BYTES[byte as usize] != b'-'
}

/// The bytes that LP names may have, again, to look up many at once.
const LP_SET: ByteSet = ByteSet {
    low: [
        30, 31, 31, 31, 31, 31, 31, 31, 31, 31, 28, 22, 21, 20, 21, 15,
    ],
    high: [0, 0, 1, 2, 4, 8, 4, 16, 0, 0, 0, 0, 0, 0, 0, 0],
};

/// Whether all bytes are allowed in LP names.
fn has_lp_bytes(bytes: &[u8]) -> bool
    ensures { result ≡ list_all is_lp_byte bytes.now }
{
    if has_all(&LP_SET, bytes) {
        return true;
    }
    bytes.iter().all(|byte| is_lp_byte(*byte))
}

/// Whether a number could begin with these bytes.
fn begins_a_number(bytes: &[u8]) -> bool
    ensures { result ≡ begins_a_number bytes.now }
{
    match bytes {
        [] => false,
        [byte, ..] => is_digit(*byte) || *byte == b'.',
    }
}

/// Whether a number before the bytes would read their beginning as its exponent.
fn is_like_exponent(bytes: &[u8]) -> bool
    ensures { result ≡ is_like_exponent bytes.now }
{
    match bytes {
        [] => false,
        [byte] => *byte == b'e' || *byte == b'E',
        [byte, next, ..] => (*byte == b'e' || *byte == b'E') && is_digit(*next),
    }
}

/// The byte in lower case.
fn lower_byte(byte: u8) -> u8
    ensures { result ≡ lower_byte byte }
{
    if is_upper(byte) { byte + 32 } else { byte }
}

/// Whether the text, in lower case, is the word.
fn is_word(text: &[u8], word: &[u8]) -> bool
    ensures { result ≡ same_bytes (map lower_byte text.now) word.now }
{
    match (text, word) {
        ([], []) => true,
        ([byte, text @ ..], [lower, word @ ..]) => {
            lower_byte(*byte) == *lower && is_word(text, word)
        }
        _ => false,
    }
}

/// Whether the text, in lower case, is one of the words.
fn is_one_of(words: &[&[u8]], text: &[u8]) -> bool
    ensures { result ≡ list_any (λ word. same_bytes (map lower_byte text.now) word.now) words.now }
{
    words.iter().any(|word| is_word(text, word))
}

/// The length of the longest reserved word.
const LONGEST_WORD: usize = 8;

/// Whether a reserved word begins with these two letters, ignoring case.
fn begins_reserved(first: u8, second: u8) -> bool
    ensures { result ≡ begins_reserved first second }
{
    match lower_byte(first) {
        b'b' => matches!(lower_byte(second), b'i' | b'o'),
        b'e' | b'i' => lower_byte(second) == b'n',
        b'f' => lower_byte(second) == b'r',
        b'g' => lower_byte(second) == b'e',
        b'm' => matches!(lower_byte(second), b'a' | b'i'),
        b's' => matches!(lower_byte(second), b'.' | b'e' | b'o' | b't' | b'u'),
        _ => false,
    }
}

/// Whether the text may be a reserved word, by its length and its first two letters, ignoring case. This excludes most names
/// quickly.
pub fn may_be_reserved(text: &[u8]) -> bool
    ensures { result ≡ may_be_reserved text.now }
{
    match text {
        [first, second, ..] => text.len() <= LONGEST_WORD && begins_reserved(*first, *second),
        _ => false,
    }
}

/// Whether the text is a reserved word, in any case of its letters.
fn is_reserved(text: &[u8]) -> bool
    ensures { result ≡ is_reserved text.now }
{
    may_be_reserved(text) && is_one_of(&RESERVED_WORDS, text)
}

impl Name {
    /// Whether the name is also legal in LP: it has only letters, digits and `!"#$%&()/,.;?@_'{}|~` and a back quote, does not
    /// begin with a digit or a period, is not a reserved word in any case, and is neither `e` or `E` nor begins with one of these
    /// and a digit.
    pub fn is_lp(&self) -> bool
        ensures { result ≡ is_lp_name self.now }
    {
        each_name_is_legal(self);
        let bytes = self.as_bytes();
        has_lp_bytes(bytes)
            && (!begins_a_number(bytes) && (!is_like_exponent(bytes) && !is_reserved(bytes)))
    }
}
