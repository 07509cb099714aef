//! The longest token that is a prefix of a text, found in one pass.

ghost use Rattle.std.specs.Prelude.{◌≡◌, ◌≤◌, ◌&&◌, [], ◌∷◌, length};
ghost use Rattle.std.specs.List.{prefix_len};
ghost use Rattle.mpslp_decimal.specs.Literal.{is_digit};
ghost use Rattle.mpslp_lp_tokens.specs.Token.{begins_word, continues_word, is_number, operator_kind, token_at};
ghost use Rattle.mpslp_lp_tokens.specs.Scan.{sign_size, exponent_size, number_size, IsLongestFront, pair_operator};

use crate::tokens::TokenKind;
use mpslp_types::is_lp_byte;

/// The number of digits with which the text begins.
fn digits_len(text: &[u8]) -> usize
    ensures count { result ≡ prefix_len is_digit text.now }
    ensures within { result ≤ length text.now }
{
    for (at, byte) in text.iter().enumerate() {
        if !byte.is_ascii_digit() {
            return at;
        }
    }
    text.len()
}

/// The length of the sign with which the text begins, 0 if there is none.
fn sign_len(text: &[u8]) -> usize
    ensures size { result ≡ sign_size text.now }
    ensures within { result ≤ length text.now }
{
    match text {
        [b'+' | b'-', ..] => 1,
        _ => 0,
    }
}

/// The length of the exponent part with which the text begins, 0 if there is none.
fn exponent_len(text: &[u8]) -> usize
    ensures size { result ≡ exponent_size text.now }
    ensures within { result ≤ length text.now }
{
    let [b'e' | b'E', after @ ..] = text else {
        return 0;
    };
    let sign = sign_len(after);
    let digits = digits_len(&after[sign..]);
    if digits == 0 { 0 } else { 1 + sign + digits }
}

/// The length of the digits, the point, the digits and the exponent part with which the text begins, 0 if there is no digit.
fn scan_number(text: &[u8]) -> usize
    ensures size { result ≡ number_size text.now }
    ensures within { result ≤ length text.now }
{
    let whole = digits_len(text);
    let rest = &text[whole..];
    match rest {
        [b'.', after @ ..] => {
            let fraction = digits_len(after);
            if whole + fraction == 0 {
                return 0;
            }
            whole + 1 + fraction + exponent_len(&after[fraction..])
        }
        _ => {
            if whole == 0 {
                return 0;
            }
            whole + exponent_len(rest)
        }
    }
}

/// The length of the longest number with which the text begins, 0 if there is none.
pub(crate) fn number_len(text: &[u8]) -> usize
    ensures { IsLongestFront is_number text.now result }
{
    scan_number(text)
}

/// Each byte with which a word may begin, at the index of its value; `-` at all other indices.
static FIRST_BYTES_OF_WORDS: [u8; 256] = *b"\
    --------------------------------\
    -!\"#$%&'()--,--/-----------;---?\
    @ABCDEFGHIJKLMNOPQRSTUVWXYZ----_\
    `abcdefghijklmnopqrstuvwxyz{|}~-\
    --------------------------------\
    --------------------------------\
    --------------------------------\
    --------------------------------";

/// Whether a word may begin with the byte.
fn is_first_of_word(byte: u8) -> bool
    ensures { result ≡ begins_word byte }
{
    FIRST_BYTES_OF_WORDS[byte as usize] != b'-'
}

/// The length of the word with which the text begins, byte by byte.
#[inline(always)]
fn word_len_by_bytes(text: &[u8]) -> usize
    ensures count { result ≡ prefix_len continues_word text.now }
    ensures within { result ≤ length text.now }
{
    for (at, byte) in text.iter().enumerate() {
        if !is_lp_byte(*byte) {
            return at;
        }
    }
    text.len()
}

/// Whether a word may continue with these four bytes.
#[inline(always)]
fn continue_word(first: u8, second: u8, third: u8, fourth: u8) -> bool
    ensures { result ≡ (continues_word first && (continues_word second && (continues_word third && continues_word fourth))) }
{
    is_lp_byte(first) && (is_lp_byte(second) && (is_lp_byte(third) && is_lp_byte(fourth)))
}

/// The length of the word with which the text begins. Most names are longer than four bytes, so four are tested at once.
#[inline(always)]
fn word_len(text: &[u8]) -> usize
    ensures count { result ≡ prefix_len continues_word text.now }
    ensures within { result ≤ length text.now }
{
    let mut rest = text;
    while let [first, second, third, fourth, more @ ..] = rest {
        if !continue_word(*first, *second, *third, *fourth) {
            break;
        }
        rest = more;
    }
    text.len() - rest.len() + word_len_by_bytes(rest)
}

/// The kind of an operator of two bytes.
fn pair_kind(first: u8, second: u8) -> Option<TokenKind>
    ensures { result ≡ operator_kind (first ∷ second ∷ []) }
{
    match (first, second) {
        (b'<', b'=') | (b'=', b'<') => Some(TokenKind::Less),
        (b'>', b'=') | (b'=', b'>') => Some(TokenKind::Greater),
        (b':', b':') => Some(TokenKind::DoubleColon),
        (b'-', b'>') => Some(TokenKind::Arrow),
        _ => None,
    }
}

/// The kind of an operator of one byte.
fn byte_kind(byte: u8) -> Option<TokenKind>
    ensures { result ≡ operator_kind (byte ∷ []) }
{
    match byte {
        b'<' => Some(TokenKind::Less),
        b'>' => Some(TokenKind::Greater),
        b'=' => Some(TokenKind::Equal),
        b':' => Some(TokenKind::Colon),
        b'+' => Some(TokenKind::Plus),
        b'-' => Some(TokenKind::Minus),
        b'[' => Some(TokenKind::OpenBracket),
        b']' => Some(TokenKind::CloseBracket),
        b'^' => Some(TokenKind::Caret),
        b'*' => Some(TokenKind::Star),
        b'.' => Some(TokenKind::Period),
        _ => None,
    }
}

/// The operator of two bytes with which the text begins.
fn pair_at(text: &[u8]) -> Option<TokenKind>
    ensures { result ≡ pair_operator text.now }
{
    match text {
        [first, second, ..] => pair_kind(*first, *second),
        _ => None,
    }
}

/// A prefix of a text that is a token: its kind and its length.
#[derive(Clone, Copy)]
pub(crate) struct Front {
    pub(crate) kind: TokenKind,
    pub(crate) size: usize,
}

/// The longest prefix of a text that is a token. If there is none, one byte of kind `Unknown`.
pub(crate) fn front_at(text: &[u8]) -> Front
    ensures kind { result.kind ≡ (token_at text.now).kind }
    ensures size { result.size ≡ (token_at text.now).size }
{
    let [first, after @ ..] = text else {
        return Front {
            kind: TokenKind::Unknown,
            size: 1,
        };
    };
    if is_first_of_word(*first) {
        return Front {
            kind: TokenKind::Word,
            size: 1 + word_len(after),
        };
    }
    if *first == b'+' {
        return Front {
            kind: TokenKind::Plus,
            size: 1,
        };
    }
    let number = number_len(text);
    if number > 0 {
        return Front {
            kind: TokenKind::Number,
            size: number,
        };
    }
    match pair_at(text) {
        Some(kind) => Front { kind, size: 2 },
        None => match byte_kind(*first) {
            Some(kind) => Front { kind, size: 1 },
            None => Front {
                kind: TokenKind::Unknown,
                size: 1,
            },
        },
    }
}
