//! Conversions between any two formats of model files, apart from the formats so that they are proved beside the readers.
//!
//! Everything is generic over the traits of formats, sources and sinks, and proved once for all that meet their contracts:
//! [`canonical`], [`same_model`] and [`is_canonical`] for bytes in memory; [`load`], [`run`] and [`show`] between a source and a
//! sink, [`read_text`] for a source of which only the model is wanted, with [`report`] and [`line_of`] for errors. The crate knows
//! no format and no device.
#![tactic(auto)]

mod collecting_sink;
mod comparing_sink;
mod conversion;
mod counting_sink;
mod fault_line;
mod faults;
mod fed_model;
pub mod laws;
mod shown_source;
mod shown_text;
mod shown_words;
mod source_to_sink;

pub use conversion::{
    canonical, canonical_seeded, is_canonical, is_canonical_seeded, model_of, same_model,
    same_model_seeded, text_of,
};
pub use fault_line::{Line, line_of, report};
pub use faults::{ConvertFault, RunFault};
pub use fed_model::read_text;
pub use shown_source::{show, show_seeded};
pub use source_to_sink::{load, run, run_seeded};
