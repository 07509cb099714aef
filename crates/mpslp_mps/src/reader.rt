//! A reader of MPS text that comes in pieces.

use crate::line_reader::LineReader;
use mpslp_lines::TextReader;

/// A reader of MPS text that comes in pieces of any length. It does not matter where the text is cut: the result is what
/// [`read_mps`](crate::read_mps) returns for the whole text.
///
/// The reader keeps what is declared, at most 1,048,577 bytes of an incomplete line, and the names with which later lines
/// are compared: the word of OBJNAME, the last column, and a set name for each section. After the line of ENDATA it keeps no
/// line and none of these names. A line is complete at its line feed; the end of the text also completes the last one. Lines
/// that are complete within a piece are not copied. Pieces after the line of ENDATA are accepted and ignored.
pub type MpsReader = TextReader<LineReader>;
