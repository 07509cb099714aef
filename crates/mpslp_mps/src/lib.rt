//! MPS text: what it declares, and the first error of text that declares no model.
//!
//! The format follows the CPLEX file format reference. Lines by themselves are defined in `mpslp_mps_fields`: their fields,
//! headers and the shapes of data lines. The definitions in `specs/` are what the lines before one mean for it (`Context`),
//! what a line declares (`LineDeclarations`), its errors (`LineFault`), and the whole text (`MpsText`, `FirstFault`).
#![tactic(auto)]

mod bounds;
mod clashes;
mod columns;
mod context;
mod data_lines;
mod header_lines;
mod headers;
pub mod laws;
mod line_reader;
mod read_line;
mod reader;
mod reading;
mod usual_lines;
mod values;
mod vectors;

pub use mpslp_lines::MAX_LINE_LEN;
pub use mpslp_mps_fields::{BoundType, Section};
pub use reader::MpsReader;
pub use reading::{read_mps, read_mps_seeded};
