//! The limits of a line of text.

ghost use Rattle.std.specs.Prelude.{◌≡◌};
ghost use Rattle.std.specs.List.{list_all};
ghost use Rattle.mpslp_lines.specs.FaultTests.{has_legal_length, is_legal_byte};

use mpslp_types::{ByteSet, has_all};

/// The most bytes of a line, including comments but not its LF or CRLF.
pub const MAX_LINE_LEN: usize = 1_048_576;

/// Whether the line is not longer than [`MAX_LINE_LEN`].
pub fn has_legal_length(line: &[u8]) -> bool
    ensures { result ≡ has_legal_length line.now }
{
    line.len() <= MAX_LINE_LEN
}

/// Whether the byte is legal outside a comment.
fn is_legal_byte(byte: u8) -> bool
    ensures { result ≡ is_legal_byte byte }
{
    (byte == b'\t') | ((32 <= byte) & (byte <= 126))
}

/// The bytes that are legal outside a comment, the tab and 32 to 126, to look up many at once.
const LEGAL: ByteSet = ByteSet {
    low: [6, 6, 6, 6, 6, 6, 6, 6, 6, 7, 6, 6, 6, 6, 6, 2],
    high: [1, 0, 2, 2, 2, 2, 2, 4, 0, 0, 0, 0, 0, 0, 0, 0],
};

/// Whether each byte is legal outside a comment, one after another.
fn are_legal_one_by_one(text: &[u8]) -> bool
    ensures { result ≡ list_all is_legal_byte text.now }
{
    let mut legal = true;
    for byte in text {
        legal = legal & is_legal_byte(*byte);
    }
    legal
}

/// Whether each byte is legal outside a comment.
pub fn are_legal_bytes(text: &[u8]) -> bool
    ensures { result ≡ list_all is_legal_byte text.now }
{
    if has_all(&LEGAL, text) {
        return true;
    }
    are_legal_one_by_one(text)
}
