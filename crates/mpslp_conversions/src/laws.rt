//! Laws that follow from the laws of all formats. Each law is the contract of a function that does nothing.

ghost use Rattle.mpslp_conversions.specs.Laws.{Headline};
ghost use Rattle.mpslp_conversions.specs.InjectiveTexts.{TextsAreInjective};

use mpslp_model::Format;

/// Two well-formed models whose names are legal in a format have the same text if and only if they are the same model.
pub fn texts_are_injective<A: Format>()
    ensures { TextsAreInjective A.unfit A.text }
{}

/// Two accepted texts, each in its own format, have the same canonical text in a third format if and only if they declare the
/// same model. The canonical text declares the original model and no other, and is its own canonical text. Converting to the
/// third format and back keeps the model. The way back is never rejected, because all names that the texts of a format
/// declare are legal in it.
pub fn headline<A: Format, B: Format, C: Format>()
    ensures { Headline A.declares A.unfit A.text B.declares C.declares C.unfit C.text }
{}
