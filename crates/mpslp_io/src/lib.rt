//! Sources of bytes and sinks for bytes, and printing a text to a sink.
//!
//! Code is generic over the traits [`Source`] and [`Sink`], and proved for every device that meets their contracts: a file,
//! a terminal, a list of bytes, a sink that only counts. [`FromRead`] and [`ToWrite`] make devices of the readers and
//! writers of std, and [`put_all`] writes a whole piece to a sink.
//!
//! An [`Output`] is a sink with the [`Buffer`] before it. Functions that print take it, and state which text or which lines they
//! append to what was put before (`specs/Printing.antt`). [`put_number`] prints a number, [`put_each`] entry after entry. Everything
//! is stated for lines of any kind, so the crate knows no format.
#![tactic(auto)]

mod devices;
mod each;
mod numbers;
mod output;
mod put;
mod streams;
mod text_buffer;

pub use devices::{IoFailed, Sink, Source};
pub use each::{CanFail, put_each};
pub use numbers::{put_number, put_size};
pub use output::Output;
pub use put::put_all;
pub use streams::{FromRead, ToWrite};
pub use text_buffer::Buffer;
