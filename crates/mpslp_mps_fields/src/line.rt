//! Comments, lines without fields, data lines and headers.

ghost use Rattle.std.specs.Prelude.{◌≡◌};
ghost use Rattle.mpslp_mps_fields.specs.Line.{is_blank, is_comment, is_data};

/// Whether the byte is a space or a tab.
pub(crate) fn is_blank(byte: u8) -> bool
    ensures { result ≡ is_blank byte }
{
    byte == b' ' || byte == b'\t'
}

/// Whether the line is a comment: its first byte is `*`.
pub fn is_comment(line: &[u8]) -> bool
    ensures { result ≡ is_comment line.now }
{
    match line {
        [byte, ..] => *byte == b'*',
        [] => false,
    }
}

/// Whether the line is a data line, if it is not skipped: its first byte is a space or a tab. If not, it is a header.
pub fn is_data(line: &[u8]) -> bool
    ensures { result ≡ is_data line.now }
{
    match line {
        [byte, ..] => is_blank(*byte),
        [] => false,
    }
}
