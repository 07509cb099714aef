//! A law of models. It is the contract of a function that does nothing: call the function to use the law.

ghost use Rattle.mpslp_model_core.specs.Model.{IsSound};

use crate::model::Model;

/// Every model is well-formed: it has at least one column, some value meets the limits of each row and the bounds of each
/// column, the bounds suit the column's type, and each coefficient is nonzero and has an existing column and an existing row
/// or the objective.
pub fn each_model_is_sound(model: &Model)
    ensures { IsSound model.now }
{
    let _sense = model.parts.sense;
}
