//! Laws of LP text as a whole. Each is the contract of a function that does nothing: to cite the law, call the function.

ghost use Rattle.mpslp_types.specs.declared.faults.FaultKind.{FaultKind};
ghost use Rattle.mpslp_lp_sentences.specs.FaultsInWords.{IsInWords, breaks_order, changes_kind, follows_constant, mixes_senses, repeats_bound, repeats_constant, repeats_entry, repeats_row, repeats_section};
ghost use Rattle.mpslp_lp_sentences.specs.Laws.{ReadTextsAreSentences, SentencesAreRead};

/// Bytes whose first lines are, token by token, a file, with no error of a line by itself and no declaration that is
/// rejected, are LP text, and declare what the file declares.
pub fn lp_sentences_are_read()
    ensures { SentencesAreRead }
{}

/// LP text is such a file, which declares what the text declares. So LP text is what the phrases say, and nothing else.
pub fn read_lp_texts_are_sentences()
    ensures { ReadTextsAreSentences }
{}

/// A first error of one of these kinds is on a line with a token that `FaultsInWords` describes for the kind, in terms of the
/// tokens before it.
pub fn lp_faults_are_in_words()
    ensures section_repeated { IsInWords FaultKind.SectionRepeated repeats_section }
    ensures section_order { IsInWords FaultKind.SectionOrder breaks_order }
    ensures constant_in_row { IsInWords FaultKind.ConstantInRow follows_constant }
    ensures mixed_senses { IsInWords FaultKind.MixedSenses mixes_senses }
    ensures duplicate_row { IsInWords FaultKind.DuplicateRow repeats_row }
    ensures duplicate_entry { IsInWords FaultKind.DuplicateEntry repeats_entry }
    ensures duplicate_rhs { IsInWords FaultKind.DuplicateRhs repeats_constant }
    ensures duplicate_bound { IsInWords FaultKind.DuplicateBound repeats_bound }
    ensures semi_continuous { IsInWords FaultKind.SemiContinuous changes_kind }
{}
