//! Reserved words, and the sections that they open.

ghost use Rattle.std.specs.Prelude.{◌≡◌, ℕ, List, map};
ghost use Rattle.std.specs.List.{find};
ghost use Rattle.std.specs.Option.{option_map_or};
ghost use Rattle.mpslp_types.specs.Name.{lower_byte, same_bytes};
ghost use Rattle.mpslp_lp_tokens.specs.declared.words.WordClass.{WordClass};
ghost use Rattle.mpslp_lp_tokens.specs.Token.{class_of, section_of};

use mpslp_types::may_be_reserved;

/// A section of an LP file. Sections come in this order, but those from Bounds to SemiContinuous may come in any order.
#[derive(Clone, Copy, Debug, PartialEq, Eq)]
pub enum Section {
    /// The objective, opened by `minimize` or `maximize`.
    Objective,
    /// The rows.
    Rows,
    /// The bounds of columns.
    Bounds,
    /// The names of integer columns.
    Generals,
    /// The names of binary columns.
    Binaries,
    /// The names of semi-continuous columns.
    SemiContinuous,
    /// The end. Lines after it are ignored.
    End,
}

/// The first word of a section.
#[derive(Clone, Copy, Debug, PartialEq, Eq)]
pub enum SectionWord {
    /// `min`, `minimize` or `minimum`.
    Minimize,
    /// `max`, `maximize` or `maximum`.
    Maximize,
    /// `st`, `s.t.` or `st.`.
    Rows,
    /// `subject`, which must be followed by `to`.
    Subject,
    /// `such`, which must be followed by `that`.
    Such,
    /// `bound` or `bounds`.
    Bounds,
    /// `general`, `generals`, `gen`, `integer`, `integers` or `int`.
    Generals,
    /// `binary`, `binaries` or `bin`.
    Binaries,
    /// `semi`, which `- continuous` may follow.
    Semi,
    /// `semis`.
    Semis,
    /// `end`.
    End,
}

impl SectionWord {
    /// The section that the word opens.
    pub fn section(self) -> Section
        ensures { result ≡ section_of self }
    {
        match self {
            SectionWord::Minimize | SectionWord::Maximize => Section::Objective,
            SectionWord::Rows | SectionWord::Subject | SectionWord::Such => Section::Rows,
            SectionWord::Bounds => Section::Bounds,
            SectionWord::Generals => Section::Generals,
            SectionWord::Binaries => Section::Binaries,
            SectionWord::Semi | SectionWord::Semis => Section::SemiContinuous,
            SectionWord::End => Section::End,
        }
    }
}

/// What a word means.
#[derive(Clone, Copy, Debug, PartialEq, Eq)]
pub enum WordClass {
    /// It opens a section.
    Opens(SectionWord),
    /// `inf` or `infinity`.
    Infinity,
    /// `free`.
    Free,
    /// `sos`, `sos1` or `sos2`.
    Sos,
    /// A name: the word is not reserved.
    Name,
}

/// The reserved words in lower case, with their meanings.
const WORDS: [(&'static [u8], WordClass); 31] = [
    (b"min", WordClass::Opens(SectionWord::Minimize)),
    (b"minimize", WordClass::Opens(SectionWord::Minimize)),
    (b"minimum", WordClass::Opens(SectionWord::Minimize)),
    (b"max", WordClass::Opens(SectionWord::Maximize)),
    (b"maximize", WordClass::Opens(SectionWord::Maximize)),
    (b"maximum", WordClass::Opens(SectionWord::Maximize)),
    (b"subject", WordClass::Opens(SectionWord::Subject)),
    (b"such", WordClass::Opens(SectionWord::Such)),
    (b"st", WordClass::Opens(SectionWord::Rows)),
    (b"s.t.", WordClass::Opens(SectionWord::Rows)),
    (b"st.", WordClass::Opens(SectionWord::Rows)),
    (b"bound", WordClass::Opens(SectionWord::Bounds)),
    (b"bounds", WordClass::Opens(SectionWord::Bounds)),
    (b"general", WordClass::Opens(SectionWord::Generals)),
    (b"generals", WordClass::Opens(SectionWord::Generals)),
    (b"gen", WordClass::Opens(SectionWord::Generals)),
    (b"integer", WordClass::Opens(SectionWord::Generals)),
    (b"integers", WordClass::Opens(SectionWord::Generals)),
    (b"int", WordClass::Opens(SectionWord::Generals)),
    (b"binary", WordClass::Opens(SectionWord::Binaries)),
    (b"binaries", WordClass::Opens(SectionWord::Binaries)),
    (b"bin", WordClass::Opens(SectionWord::Binaries)),
    (b"semi", WordClass::Opens(SectionWord::Semi)),
    (b"semis", WordClass::Opens(SectionWord::Semis)),
    (b"sos", WordClass::Sos),
    (b"sos1", WordClass::Sos),
    (b"sos2", WordClass::Sos),
    (b"free", WordClass::Free),
    (b"inf", WordClass::Infinity),
    (b"infinity", WordClass::Infinity),
    (b"end", WordClass::Opens(SectionWord::End)),
];

/// The byte in lower case.
fn lower_byte(byte: u8) -> u8
    ensures { result ≡ lower_byte byte }
{
    if 65 <= byte && byte <= 90 {
        byte + 32
    } else {
        byte
    }
}

/// Whether the text is the word, which is in lower case. Upper and lower case of the text make no difference.
pub fn is_word(text: &[u8], word: &[u8]) -> bool
    ensures { result ≡ same_bytes (map lower_byte text.now) word.now }
{
    match (text, word) {
        ([], []) => true,
        ([byte, text @ ..], [lower, word @ ..]) => {
            lower_byte(*byte) == *lower && is_word(text, word)
        }
        _ => false,
    }
}

/// The first of the words that the text is, ignoring case, with its meaning.
fn word_among(
    words: &[(&'static [u8], WordClass)],
    text: &[u8],
) -> Option<(&'static [u8], WordClass)>
    ensures { result ≡ find (λ entry. same_bytes (map lower_byte text.now) entry.0.now) words.now }
{
    words.iter().copied().find(|entry| is_word(text, entry.0))
}

/// The meaning of a text, looked up among these words.
fn class_among(words: &[(&'static [u8], WordClass)], text: &[u8]) -> WordClass
    ensures { result ≡ (let meanings = map (λ entry. (entry.0.now, entry.1)) words.now in
        option_map_or (λ (entry : List ℕ × WordClass). entry.1) (find (λ entry. same_bytes (map lower_byte text.now) entry.0) meanings) WordClass.Name) }
{
    match word_among(words, text) {
        Some((_word, word_class)) => word_class,
        None => WordClass::Name,
    }
}

/// What a word means, in upper case, lower case or both. A word that is not reserved is a name, whether it is a legal one or not.
pub fn class_of(text: &[u8]) -> WordClass
    ensures { result ≡ class_of text.now }
{
    if may_be_reserved(text) {
        class_among(&WORDS, text)
    } else {
        WordClass::Name
    }
}
