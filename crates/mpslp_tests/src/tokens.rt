//! Tests of the tokens of LP lines.

use mpslp_lp::{Section, TokenKind, next_token, tokens_of};
use mpslp_lp_grammar::{Sign, TerminalKind, classify_found};
use mpslp_lp_tokens::laws::each_word_has_lp_bytes;
use mpslp_lp_tokens::{Relation, SectionWord, WordClass, class_of, is_word};
use mpslp_model::FaultKind;
use std::alloc::{AllocError, Global};
use std::test::Fail;

/// The two parts of a case, which `|` separates.
fn parts(case: &str) -> (&str, &str) {
    case.split_once('|').unwrap_or((case, ""))
}

/// Lines, and the texts of their tokens, separated by spaces.
const LINES: &str = "|
 \t |
\\ a comment|
c1: 3x + 2.5 y >= -1e3 \\ after|c1 : 3 x + 2.5 y >= - 1e3
1e|1 e
1e+|1 e +
1e-7x|1e-7 x
1ex|1 ex
1.5.5|1.5 .5
1..|1. .
.e5|. e5
.5E5E5|.5E5 E5
x.y2z|x.y2z
a::b:c->d-> -e|a :: b : c -> d -> - e
<<==<=>>==|< <= =< => >= =
[x^2*y]/2|[ x ^ 2 * y ] /2
a\x01=|a \x01 =
00012.e01|00012.e01
";

/// The texts of the tokens of a line, separated by spaces.
fn cut(alloc: Global, line: &str) -> Result<String, AllocError> {
    let mut found = String::new(alloc);
    for token in tokens_of(line.as_bytes()) {
        if !found.is_empty() {
            found.push(' ')?;
        }
        for byte in token.text {
            found.push(char::from(*byte))?;
        }
    }
    Ok(found)
}

#[test]
fn cuts_worked_lines(rt: HostRuntime) -> Result<(), Fail> {
    for case in LINES.lines() {
        let (line, wanted) = parts(case);
        assert_eq!(rt; cut(rt.alloc(), line)?.as_str(), wanted, "at {line}");
    }
    Ok(())
}

/// Texts that begin with a token, and what the token is.
const KINDS: &str = "x1|word
1x|number
.5|number
<=|less
=>|greater
= <|equal
::|double colon
: :|colon
->|arrow
+|plus
-1|minus
[|open bracket
]|close bracket
^2|caret
*|star
.x|period
\x7f|unknown
";

fn text_of_kind(kind: TokenKind) -> &'static str {
    match kind {
        TokenKind::Word => "word",
        TokenKind::Number => "number",
        TokenKind::Less => "less",
        TokenKind::Greater => "greater",
        TokenKind::Equal => "equal",
        TokenKind::DoubleColon => "double colon",
        TokenKind::Colon => "colon",
        TokenKind::Arrow => "arrow",
        TokenKind::Plus => "plus",
        TokenKind::Minus => "minus",
        TokenKind::OpenBracket => "open bracket",
        TokenKind::CloseBracket => "close bracket",
        TokenKind::Caret => "caret",
        TokenKind::Star => "star",
        TokenKind::Period => "period",
        TokenKind::Unknown => "unknown",
    }
}

/// Whether a text begins with a token of this kind.
fn begins_with(text: &str, kind: &str) -> bool {
    match next_token(text.as_bytes(), 0) {
        Some(token) => text_of_kind(token.kind) == kind && token.start == 0,
        None => false,
    }
}

#[test]
fn names_what_a_token_is(rt: HostRuntime) {
    for case in KINDS.lines() {
        let (text, kind) = parts(case);
        assert!(rt; begins_with(text, kind), "at {text}");
    }
}

const TOUCHING: [(TokenKind, usize, &str); 4] = [
    (TokenKind::Number, 2, "3"),
    (TokenKind::Word, 3, "x1"),
    (TokenKind::Greater, 5, ">="),
    (TokenKind::Number, 7, "2"),
];

/// Whether the tokens of a line are these.
fn has_tokens(line: &[u8], wanted: &[(TokenKind, usize, &str)]) -> bool {
    let mut tokens = tokens_of(line);
    for (kind, start, text) in wanted {
        let Some(token) = tokens.next() else {
            return false;
        };
        if token.kind != *kind || (token.start != *start || token.text != text.as_bytes()) {
            return false;
        }
    }
    tokens.next().is_none()
}

#[test]
fn tokens_that_touch_are_cut(rt: HostRuntime) {
    assert!(rt; has_tokens(b"  3x1>=2", &TOUCHING));
}

/// Words, and what they mean.
const MEANINGS: &str = "min|minimize
MAXIMUM|maximize
s.t.|rows
Integers|generals
END|end
infinity|infinity
free|free
sos2|sos
minimise|name
";

fn text_of_class(class: WordClass) -> &'static str {
    match class {
        WordClass::Opens(SectionWord::Minimize) => "minimize",
        WordClass::Opens(SectionWord::Maximize) => "maximize",
        WordClass::Opens(SectionWord::Rows) => "rows",
        WordClass::Opens(SectionWord::Generals) => "generals",
        WordClass::Opens(SectionWord::End) => "end",
        WordClass::Opens(_) => "another section",
        WordClass::Infinity => "infinity",
        WordClass::Free => "free",
        WordClass::Sos => "sos",
        WordClass::Name => "name",
    }
}

#[test]
fn words_have_a_meaning(rt: HostRuntime) {
    for case in MEANINGS.lines() {
        let (text, meaning) = parts(case);
        assert_eq!(rt;
            text_of_class(class_of(text.as_bytes())),
            meaning,
            "at {text}"
        );
    }
}

#[test]
fn case_makes_no_difference(rt: HostRuntime) {
    assert!(rt; is_word(b"To", b"to"));
    assert!(rt; !is_word(b"tom", b"to"));
}

#[test]
fn words_open_sections(rt: HostRuntime) {
    assert!(rt; SectionWord::Such.section() == Section::Rows);
    assert!(rt; SectionWord::Semis.section() == Section::SemiContinuous);
}

#[test]
fn tokens_once_more_are_the_same(rt: HostRuntime) {
    let mut tokens = tokens_of(b"3x1>=2");
    let mut again = tokens.again();
    assert!(rt; again.next().is_some());
    match tokens.next() {
        Some(token) => assert!(rt; token.start == 0),
        None => assert!(rt; false),
    }
}

/// Whether these bytes of a line are left after so many tokens.
fn leaves(line: &str, count: usize, wanted: &str) -> bool {
    let mut tokens = tokens_of(line.as_bytes());
    for _ in 0..count {
        let _token = tokens.next();
    }
    tokens.bytes_left() == wanted.as_bytes()
}

#[test]
fn bytes_after_tokens_are_left(rt: HostRuntime) {
    assert!(rt; leaves(" x >= 2", 0, " x >= 2"));
    assert!(rt; leaves(" x >= 2", 1, " >= 2"));
    assert!(rt; leaves(" x >= 2", 3, ""));
    assert!(rt; leaves("x \\ c", 1, " \\ c"));
    assert!(rt; leaves("x \\ c", 2, ""));
    assert!(rt; leaves("", 0, ""));
}

/// Lines, and what the grammar sees of their first tokens.
const SEEN: &str = "x1|name
e5|name like an exponent
Free|another terminal
12|number
1e999|another error
>=|at least
- 3|minus
::|sos
->|indicator
[|quadratic
\\|nothing
";

fn text_of_terminal(kind: TerminalKind) -> &'static str {
    match kind {
        TerminalKind::Name => "name",
        TerminalKind::Number(_) => "number",
        TerminalKind::Compares(Relation::AtLeast) => "at least",
        TerminalKind::Sign(Sign::Minus) => "minus",
        _ => "another terminal",
    }
}

fn text_of_error(kind: FaultKind) -> &'static str {
    match kind {
        FaultKind::NameLikeExponent => "name like an exponent",
        FaultKind::Sos => "sos",
        FaultKind::Indicator => "indicator",
        FaultKind::Quadratic => "quadratic",
        _ => "another error",
    }
}

/// What the grammar sees of the first token of a line.
fn first_seen(line: &str) -> &'static str {
    let mut tokens = tokens_of(line.as_bytes());
    each_word_has_lp_bytes(&tokens);
    let Some(token) = tokens.next() else {
        return "nothing";
    };
    match classify_found(token.kind, token.text) {
        Ok(kind) => text_of_terminal(kind),
        Err(kind) => text_of_error(kind),
    }
}

#[test]
fn grammar_sees_what_is_found(rt: HostRuntime) {
    for case in SEEN.lines() {
        let (line, wanted) = parts(case);
        assert_eq!(rt; first_seen(line), wanted, "at {line}");
    }
}
