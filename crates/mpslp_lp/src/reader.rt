//! A reader of LP text that comes in pieces.

use crate::line_reader::LineReader;
use mpslp_lines::TextReader;

/// A reader of LP text that comes in pieces of any length. It does not matter where the text is cut: the result is what
/// [`read_lp`](crate::read_lp) returns for the whole text.
///
/// The reader keeps what is declared, the incomplete row, the memory of one completed row, and of the text only the
/// incomplete line: at most 1,048,577 bytes, and none after the line of `end`. A line is complete at its line feed; the end
/// of the text also completes the last one. Lines that are complete within a piece are not copied. Pieces after the line of
/// `end` are accepted and ignored.
pub type LpReader = TextReader<LineReader>;
