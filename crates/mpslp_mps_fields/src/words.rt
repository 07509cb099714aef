//! The words of the format: keywords, types and senses.

ghost use Rattle.std.specs.Prelude.{◌≡◌, if◌then◌else◌, codes, [], ◌∷◌};
ghost use Rattle.std.specs.List.{list_any};
ghost use Rattle.mpslp_types.specs.Name.{same_bytes, marker, is_one_of};
ghost use Rattle.mpslp_mps_fields.specs.Line.{keyword_of, section_named, unknown_section};
ghost use Rattle.mpslp_mps_fields.specs.DataLine.{sense_of, row_type, opening_word, closing_word, bound_type, takes_value, is_integer_type, is_semi_type};

use crate::bound_types::BoundType;
use crate::sections::Section;
use mpslp_types::{FaultKind, RowType, Sense};

/// Whether the word is one of these.
fn is_one_of(words: &[&[u8]], word: &[u8]) -> bool
    ensures { result ≡ list_any (λ known. same_bytes word.now known.now) words.now }
{
    words.iter().any(|known| word == *known)
}

/// All sections.
const SECTIONS: [Section; 9] = [
    Section::Name,
    Section::ObjSense,
    Section::ObjName,
    Section::Rows,
    Section::Columns,
    Section::Rhs,
    Section::Ranges,
    Section::Bounds,
    Section::EndData,
];

impl Section {
    /// The keyword of the section's header.
    fn keyword(self) -> &'static [u8]
        ensures { result.now ≡ keyword_of self }
    {
        match self {
            Section::Name => b"NAME".as_slice(),
            Section::ObjSense => b"OBJSENSE".as_slice(),
            Section::ObjName => b"OBJNAME".as_slice(),
            Section::Rows => b"ROWS".as_slice(),
            Section::Columns => b"COLUMNS".as_slice(),
            Section::Rhs => b"RHS".as_slice(),
            Section::Ranges => b"RANGES".as_slice(),
            Section::Bounds => b"BOUNDS".as_slice(),
            Section::EndData => b"ENDATA".as_slice(),
        }
    }
}

/// The section with a keyword; `None` if there is none in this profile. Keywords are in upper case.
pub fn section_named(keyword: &[u8]) -> Option<Section>
    ensures { result ≡ section_named keyword.now }
{
    SECTIONS
        .iter()
        .copied()
        .find(|section| keyword == section.keyword())
}

/// The error of a header that is not a section of this profile: `Quadratic`, `Sos` or `Indicator` for a keyword of the CPLEX
/// format that has that meaning, `UnknownSection` for any other word.
pub fn unknown_section(keyword: &[u8]) -> FaultKind
    ensures { result ≡ unknown_section keyword.now }
{
    let quadratic = [
        b"QSECTION".as_slice(),
        b"QMATRIX".as_slice(),
        b"QUADOBJ".as_slice(),
        b"QCMATRIX".as_slice(),
        b"CSECTION".as_slice(),
    ];
    let ordered_sets = [b"SOS".as_slice(), b"SOS1".as_slice(), b"SOS2".as_slice()];
    if is_one_of(&quadratic, keyword) {
        FaultKind::Quadratic
    } else if is_one_of(&ordered_sets, keyword) {
        FaultKind::Sos
    } else if is_one_of(&[b"INDICATORS".as_slice()], keyword) {
        FaultKind::Indicator
    } else {
        FaultKind::UnknownSection
    }
}

/// The sense that a word of OBJSENSE means: `MAX`, `MAXIMIZE`, `MIN` or `MINIMIZE`, in upper case; `None` for other words.
pub fn sense_of(word: &[u8]) -> Option<Sense>
    ensures { result ≡ sense_of word.now }
{
    if is_one_of(&[b"MAX".as_slice(), b"MAXIMIZE".as_slice()], word) {
        Some(Sense::Maximize)
    } else if is_one_of(&[b"MIN".as_slice(), b"MINIMIZE".as_slice()], word) {
        Some(Sense::Minimize)
    } else {
        None
    }
}

/// The row type of a letter: `N`, `L`, `G` or `E`; `None` for other fields.
pub fn row_type(letter: &[u8]) -> Option<RowType>
    ensures { result ≡ row_type letter.now }
{
    match letter {
        b"N" => Some(RowType::Free),
        b"L" => Some(RowType::AtMost),
        b"G" => Some(RowType::AtLeast),
        b"E" => Some(RowType::Equal),
        _ => None,
    }
}

/// The bound type of its two letters; `None` if no type has them.
pub fn bound_type(letters: &[u8]) -> Option<BoundType>
    ensures { result ≡ bound_type letters.now }
{
    match letters {
        b"LO" => Some(BoundType::Lower),
        b"UP" => Some(BoundType::Upper),
        b"FX" => Some(BoundType::Fixed),
        b"FR" => Some(BoundType::Free),
        b"MI" => Some(BoundType::NoLower),
        b"PL" => Some(BoundType::NoUpper),
        b"BV" => Some(BoundType::Binary),
        b"LI" => Some(BoundType::IntegerLower),
        b"UI" => Some(BoundType::IntegerUpper),
        b"SC" => Some(BoundType::SemiUpper),
        _ => None,
    }
}

impl BoundType {
    /// Whether a line of this type has a value.
    pub(crate) fn takes_value(self) -> bool
        ensures { result ≡ takes_value self }
    {
        match self {
            BoundType::Lower
            | BoundType::Upper
            | BoundType::Fixed
            | BoundType::IntegerLower
            | BoundType::IntegerUpper
            | BoundType::SemiUpper => true,
            BoundType::Free | BoundType::NoLower | BoundType::NoUpper | BoundType::Binary => false,
        }
    }
}

/// Whether a line of this type declares its column integer.
pub fn is_integer_type(bound_type: BoundType) -> bool
    ensures { result ≡ is_integer_type bound_type }
{
    match bound_type {
        BoundType::Binary | BoundType::IntegerLower | BoundType::IntegerUpper => true,
        _ => false,
    }
}

/// Whether a line of this type declares its column semi-continuous.
pub fn is_semi_type(bound_type: BoundType) -> bool
    ensures { result ≡ is_semi_type bound_type }
{
    match bound_type {
        BoundType::SemiUpper => true,
        _ => false,
    }
}

/// Whether the second field of a line of COLUMNS makes it a marker line.
pub(crate) fn is_marker(field: &[u8]) -> bool
    ensures { result ≡ same_bytes field.now marker }
{
    field == b"'MARKER'".as_slice()
}

/// Whether the word of a marker line begins or ends a special ordered set.
pub fn is_sos_word(word: &[u8]) -> bool
    ensures { result ≡ is_one_of (codes "'SOSORG'" ∷ codes "'SOSEND'" ∷ []) word.now }
{
    is_one_of(&[b"'SOSORG'".as_slice(), b"'SOSEND'".as_slice()], word)
}

/// Whether the word of a marker line opens an integer block.
pub fn is_opening_word(word: &[u8]) -> bool
    ensures { result ≡ same_bytes opening_word word.now }
{
    b"'INTORG'".as_slice() == word
}

/// Whether the word of a marker line fits: inside an integer block the word that closes it, elsewhere the one that opens
/// one.
pub fn is_due_word(word: &[u8], in_integer_part: bool) -> bool
    ensures { result ≡ same_bytes word.now (if in_integer_part then closing_word else opening_word) }
{
    if in_integer_part {
        word == b"'INTEND'".as_slice()
    } else {
        word == b"'INTORG'".as_slice()
    }
}
