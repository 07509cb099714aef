//! Laws of the arrays of models. Each is the contract of a function that does nothing: to cite the law, call the function.

ghost use Rattle.mpslp_c.specs.Laws.{DefineTheirModels, AreStoredAsTheirTexts};

/// The arrays of a well-formed model define that model: what [`seeded_load`](crate::loading::seeded_load) returns is taken by
/// [`seeded_store`](crate::storing::seeded_store) and [`seeded_normalize`](crate::normalizing::seeded_normalize) as exactly the
/// model that was loaded.
pub fn arrays_define_their_models()
    ensures { DefineTheirModels }
{}

/// The text of a loaded model that is stored again is the canonical text of the model that the loaded bytes declare.
pub fn loaded_models_are_stored_as_their_texts()
    ensures { AreStoredAsTheirTexts }
{}
