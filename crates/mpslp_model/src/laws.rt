//! Laws of names, of declarations and of the models that they mean. Each law is the contract of a function that does nothing:
//! call the function to use the law.
//!
//! The laws of every builder or model read a field of it, which makes its invariant available to the proof.

pub use mpslp_builder::laws::{
    declarations_mean_one_model, each_builder_is_made, finish_answers_the_meaning, finish_is_exact,
    made_declarations_are_consistent, order_is_of_no_account,
};
pub use mpslp_model_core::laws::each_model_is_sound;
pub use mpslp_types::laws::{each_name_is_legal, limits_are_ordered, lp_names_are_mps_names};
