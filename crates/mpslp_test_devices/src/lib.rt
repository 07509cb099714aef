//! Devices for tests: a reader that returns its bytes in small pieces and fails in a chosen read, and a writer
//! that takes a number of bytes and then fails.
//!
//! They meet the contracts of [`Source`](mpslp_io::Source) and [`Sink`](mpslp_io::Sink), and their own contracts say in which
//! call they fail. The program `try_library` uses them to check the conversions on the files of `vectors/`.
#![tactic(auto)]

mod reader;
mod writer;

pub use reader::FailingReader;
pub use writer::FailingWriter;
