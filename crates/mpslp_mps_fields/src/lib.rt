//! Lines of MPS text: their fields, shapes and words, apart from the reader so that they are proved beside the builder.
//!
//! The format follows the CPLEX file format reference, with fields separated by spaces and tabs. The definitions are in
//! `specs/`: lines, their fields, and headers with their sections and what follows their keywords (`Line`), and the shapes of
//! data lines (`DataLine`).
//!
//! [`front_fields`] returns the first fields of a line. A function for each section ([`row_shape`], [`column_shape`],
//! [`vector_shape`], [`bound_shape`]) returns the parts of a data line with these fields, or `None` if the line has another
//! shape. Nothing is allocated or copied: all parts are slices of the line. What a line means after the lines before it is
//! in `mpslp_mps`.
#![tactic(auto)]

mod after_keyword;
mod bound_types;
mod fields;
mod line;
mod sections;
mod shapes;
mod words;

pub use after_keyword::{header_objname, may_follow, section_of_word_due};
pub use bound_types::BoundType;
pub use fields::{FRONT_LEN, front_fields};
pub use line::{is_comment, is_data};
pub use sections::Section;
pub use shapes::{
    BoundLine, Pair, Pairs, RowLine, ValuesLine, bound_shape, column_shape, is_marker_line,
    marker_shape, row_shape, third_field, vector_shape, word_shape,
};
pub use words::{
    bound_type, is_due_word, is_integer_type, is_opening_word, is_semi_type, is_sos_word, row_type,
    section_named, sense_of, unknown_section,
};
