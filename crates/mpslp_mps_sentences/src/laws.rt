//! Laws of MPS text as a whole. Each is the contract of a function that does nothing: to cite the law, call the function.

ghost use Rattle.mpslp_types.specs.declared.faults.FaultKind.{FaultKind};
ghost use Rattle.mpslp_mps_sentences.specs.FaultsInWords.{IsInWords, repeats_section, occurs_out_of_order, is_wrong_marker, is_of_second_set, splits_column, names_unknown_row, names_unknown_column, repeats_row, repeats_entry};
ghost use Rattle.mpslp_mps_sentences.specs.ValueFaultsInWords.{repeats_side, repeats_range, repeats_bound, ranges_free_row, makes_both_kinds};
ghost use Rattle.mpslp_mps_sentences.specs.Laws.{TextIsInWords};

/// MPS text is defined by tests that go from line to line. It is also the text that `TextInWords` describes as a whole: by
/// its headers, and by the lines of each section together.
pub fn mps_text_is_in_words()
    ensures { TextIsInWords }
{}

/// A first error of one of these kinds is on a line that `FaultsInWords` or `ValueFaultsInWords` describes for the kind, in
/// terms of the lines before it.
pub fn mps_faults_are_in_words()
    ensures section_repeated { IsInWords FaultKind.SectionRepeated repeats_section }
    ensures section_order { IsInWords FaultKind.SectionOrder occurs_out_of_order }
    ensures bad_marker { IsInWords FaultKind.BadMarker is_wrong_marker }
    ensures second_set { IsInWords FaultKind.SecondSet is_of_second_set }
    ensures unknown_row { IsInWords FaultKind.UnknownRow names_unknown_row }
    ensures unknown_column { IsInWords FaultKind.UnknownColumn names_unknown_column }
    ensures duplicate_row { IsInWords FaultKind.DuplicateRow repeats_row }
    ensures duplicate_entry { IsInWords FaultKind.DuplicateEntry repeats_entry }
    ensures column_split { IsInWords FaultKind.ColumnSplit splits_column }
    ensures duplicate_rhs { IsInWords FaultKind.DuplicateRhs repeats_side }
    ensures duplicate_range { IsInWords FaultKind.DuplicateRange repeats_range }
    ensures duplicate_bound { IsInWords FaultKind.DuplicateBound repeats_bound }
    ensures range_on_free { IsInWords FaultKind.RangeOnFree ranges_free_row }
    ensures semi_continuous { IsInWords FaultKind.SemiContinuous makes_both_kinds }
{}
