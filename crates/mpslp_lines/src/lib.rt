//! What the readers of both text formats share: the limits of a line, the errors of names and number literals, the first
//! error of a line in its context, why a line is rejected, and texts that come in pieces.
//!
//! Each format has its own lines, tokens and grammar. The definitions are in `specs/`: tests in the order of the kinds of
//! errors, for the length and the bytes of a line, names and literals (`FaultTests`), the errors of what is declared
//! (`Declaring`), the result of reading a line (`LineAnswer`) and further lines (`LinesRead`), what is kept of an
//! incomplete line (`OpenLine`), what was read of a text in pieces (`Pieces`), and by a reader that may have failed
//! (`TextReading`).
//!
//! A format implements [`ReadLines`], which reads its lines one after another. [`PieceReader`] divides pieces into lines for it,
//! and [`TextReader`] is the reader of the format.
#![tactic(auto)]

mod errors;
mod fault_order;
mod legal_line;
mod line_ends;
mod literals;
mod open_line;
mod piece_reader;
mod read_lines;
mod text_reader;

pub use errors::{LineError, NumberedError, read_fault};
pub use fault_order::lower_ranked_kind;
pub use legal_line::{MAX_LINE_LEN, are_legal_bytes, has_legal_length};
pub use literals::{kind_of_number_fault, lower_ranked_number_fault, value_of};
pub use piece_reader::PieceReader;
pub use read_lines::ReadLines;
pub use text_reader::TextReader;
