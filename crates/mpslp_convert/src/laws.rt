//! Laws of any formats. Each law is the contract of a function that does nothing.

pub use mpslp_conversions::laws::{headline, texts_are_injective};
