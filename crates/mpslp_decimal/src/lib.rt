//! Exact decimals: the numbers of model files, read and printed without rounding.
//!
//! A [`Decimal`] is an integer of at most [`MAX_DIGITS`] digits times a power of ten, in a normal form, so two decimals have
//! the same value if and only if they are the same pair.
#![tactic(auto)]

pub mod laws;
mod literal;
mod number;
mod packed;
mod text;

pub use literal::{MAX_LITERAL_LEN, NumberFault};
pub use number::{Decimal, MAX_DIGITS, MAX_EXPONENT, MIN_EXPONENT};
pub use packed::PackedDecimal;
pub use text::DecimalText;
