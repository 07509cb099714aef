//! The vocabulary of models: names, the types of rows and columns, limits and bounds, the formats of files, and the errors of
//! files, calls and texts.
//!
//! A [`SortedMap`] is a map that is stored as a vector, in the order of its keys. Look-up is a binary search, and inserting an
//! entry out of order moves the entries after it. What is looked up need not be a key: a [`Query`] is anything that can be
//! compared with keys.
#![tactic(auto)]

mod faults;
mod forms;
mod kinds;
pub mod laws;
mod names;
mod sorted_map;

pub use faults::{BuildFault, Fault, FaultKind, NameAt, ReadFault, WriteFault};
pub use forms::Form;
pub use kinds::{Kind, Limit, RowType, Sense};
pub use names::{
    ByteSet, FIXED_SEED, HashSeed, MAX_NAME_LEN, Name, NameBytes, NameFault, NameHasher, has_all,
    is_lp_byte, may_be_reserved,
};
pub use sorted_map::{Key, Query, SortedMap, entry_at, find_entry, find_index};
