//! The tokens of a line of LP.

use mpslp_lp::{Token, TokenKind, tokens_of};

/// The tokens of `  3x1>=2 \ a comment`: kinds, places and texts.
const TOKENS: [(TokenKind, usize, &str); 4] = [
    (TokenKind::Number, 2, "3"),
    (TokenKind::Word, 3, "x1"),
    (TokenKind::Greater, 5, ">="),
    (TokenKind::Number, 7, "2"),
];

/// Whether a token is of this kind, at this place, and has this text.
fn is(token: Token<'_>, kind: TokenKind, start: usize, text: &str) -> bool {
    token.kind == kind && token.start == start && token.text == text.as_bytes()
}

#[test]
fn a_line_has_these_tokens(rt: HostRuntime) {
    let mut tokens = tokens_of(b"  3x1>=2 \\ a comment");
    for (kind, start, text) in TOKENS {
        let is_found = match tokens.next() {
            Some(token) => is(token, kind, start, text),
            None => false,
        };
        assert!(rt; is_found, "at {text}");
    }
    assert!(rt; tokens.next().is_none());
}

/// Lines of one token, and its kind.
const KINDS: [(&str, TokenKind); 16] = [
    ("obj", TokenKind::Word),
    ("1.5e-3", TokenKind::Number),
    ("=<", TokenKind::Less),
    ("=>", TokenKind::Greater),
    ("=", TokenKind::Equal),
    ("::", TokenKind::DoubleColon),
    (":", TokenKind::Colon),
    ("->", TokenKind::Arrow),
    ("+", TokenKind::Plus),
    ("-", TokenKind::Minus),
    ("[", TokenKind::OpenBracket),
    ("]", TokenKind::CloseBracket),
    ("^", TokenKind::Caret),
    ("*", TokenKind::Star),
    (".", TokenKind::Period),
    ("\x01", TokenKind::Unknown),
];

#[test]
fn each_kind_has_a_token(rt: HostRuntime) {
    for (line, kind) in KINDS {
        let is_found = match tokens_of(line.as_bytes()).next() {
            Some(token) => is(token, kind, 0, line),
            None => false,
        };
        assert!(rt; is_found, "at {line}");
    }
}
