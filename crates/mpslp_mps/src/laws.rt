//! Laws of MPS text. Each is the contract of a function that does nothing: to cite the law, call the function.

ghost use Rattle.mpslp_mps.specs.Laws.{DeclareOneModel, DeclareOrFail, DeclareUnlessFaulty, HaveOneFirstFault};

/// No bytes declare two models.
pub fn one_model_in_mps()
    ensures { DeclareOneModel }
{}

/// No bytes have two first errors.
pub fn one_fault_in_mps()
    ensures { HaveOneFirstFault }
{}

/// No bytes both declare a model and have a first error.
pub fn model_or_fault_in_mps()
    ensures { DeclareOrFail }
{}

/// Bytes without a first error declare a model.
pub fn model_without_fault_in_mps()
    ensures { DeclareUnlessFaulty }
{}
