//! Laws of declarations and of the models that they mean. Each law is the contract of a function that does nothing: call the
//! function to use the law.
//!
//! Laws of every builder read a field of it, which makes its invariant available to the proof.

ghost use Rattle.mpslp_builder.specs.Made.{IsMade};
ghost use Rattle.mpslp_builder.specs.Laws.{FaultsAreExact, FinishAnswersTheMeaning, MadeDeclarationsAreConsistent, MeanOneModel, MeanTheSameInAnyOrder};

use crate::builder::Builder;

/// Declarations mean at most one model.
pub fn declarations_mean_one_model()
    ensures { MeanOneModel }
{}

/// The order of declarations does not matter: if declarations mean a model, they mean it in any order.
pub fn order_is_of_no_account()
    ensures { MeanTheSameInAnyOrder }
{}

/// [`finish`](Builder::finish) rejects no model and invents none: the declarations of a builder have no whole-file error if
/// and only if they mean a model.
pub fn finish_is_exact()
    ensures { FaultsAreExact }
{}

/// The declarations of a builder, the objective's name included, are consistent: what may be declared once is declared at
/// most once, and every name that they use is declared.
pub fn made_declarations_are_consistent()
    ensures { MadeDeclarationsAreConsistent }
{}

/// Unless memory runs out, [`finish`](Builder::finish) returns a model if and only if the declarations mean one, and returns
/// the model that they mean. The law applies to whatever meets the contract of `finish`.
pub fn finish_answers_the_meaning()
    ensures { FinishAnswersTheMeaning }
{}

/// The draft in a builder results from legal declarations, none of which was rejected. So properties of all such drafts, for
/// example that their maps are sorted, need no `requires` in callers that declare more.
pub fn each_builder_is_made(builder: &Builder)
    ensures { IsMade builder.now }
{
    let _sense = builder.sense;
}
