//! The calls for C: conversions and comparisons of whole texts in memory, and whole models as arrays.
//!
//! Each call returns a status and its results through pointers of the caller. `include/mpslp.h` declares them, and
//! `docs/C.md` lists the obligations of the caller.
#![tactic(auto)]

mod answers;
mod arrays;
mod calls;
mod faults;
pub mod laws;
mod loading;
mod normalizing;
mod numbers;
mod stored_items;
mod storing;
mod texts;
