//! The tokens of a line of LP text, found in one pass without an allocation.

ghost use Rattle.std.specs.Prelude.{◌≡◌, ◌≤◌, [], length, MatchOption};
ghost use Rattle.std.specs.List.{prefix_len};
ghost use Rattle.mpslp_lp_tokens.specs.Token.{is_blank, tokens};
ghost use Rattle.std.specs.Iterator.{YieldsFirstBy, item_count};
ghost use Rattle.mpslp_lp_tokens.specs.Scan.{token_of, tokens_after, AreTokensOf, IsNext};

use crate::scan::front_at;
use std::marker::Model;

/// The kind of a token.
#[derive(Clone, Copy, Debug, PartialEq, Eq)]
pub enum TokenKind {
    /// A name or a reserved word.
    Word,
    /// A number, without a sign.
    Number,
    /// `<`, `<=` or `=<`.
    Less,
    /// `>`, `>=` or `=>`.
    Greater,
    /// `=`.
    Equal,
    /// `::`.
    DoubleColon,
    /// `:`.
    Colon,
    /// `->`.
    Arrow,
    /// `+`.
    Plus,
    /// `-`.
    Minus,
    /// `[`.
    OpenBracket,
    /// `]`.
    CloseBracket,
    /// `^`.
    Caret,
    /// `*`.
    Star,
    /// A period that does not begin a number.
    Period,
    /// A byte that is not allowed outside a comment.
    Unknown,
}

/// A token of a line.
#[derive(Clone, Copy, Debug)]
pub struct Token<'a> {
    /// Its kind.
    pub kind: TokenKind,
    /// The index in the line at which it begins.
    pub start: usize,
    /// Its bytes.
    pub text: &'a [u8],
}

/// The number of spaces and tabs with which the text begins.
fn blanks_len(text: &[u8]) -> usize
    ensures count { result ≡ prefix_len is_blank text.now }
    ensures within { result ≤ length text.now }
{
    for (at, byte) in text.iter().enumerate() {
        if *byte != b' ' && *byte != b'\t' {
            return at;
        }
    }
    text.len()
}

/// The first token of the line at or after the index `at`; `None` if only spaces, tabs and a comment are left. `at` must not
/// be inside a token: begin with 0, and continue at the end of the token that was returned.
#[inline(always)]
pub fn next_token(line: &[u8], at: usize) -> Option<Token<'_>>
    requires { at ≤ length line.now }
    ensures { MatchOption result (tokens_after line.now at ≡ []) (λ token. IsNext line.now at token) }
{
    let start = at + blanks_len(&line[at..]);
    let rest = &line[start..];
    if rest.is_empty() || rest[0] == b'\\' {
        return None;
    }
    let front = front_at(rest);
    Some(Token {
        kind: front.kind,
        start,
        text: &rest[..front.size],
    })
}

/// The tokens of a line that are left. Contracts see it as their list.
#[derive(Drop)]
pub struct Tokens<'a> {
    line: &'a [u8],
    pub(crate) at: usize,
}

impl<'a> Model for Tokens<'a> {
    ghost use Rattle.std.specs.Prelude.{◌≤◌, List, length};
    ghost use Rattle.mpslp_lp_tokens.specs.Token.{Token};
    ghost use Rattle.mpslp_lp_tokens.specs.Scan.{tokens_after};

    ghost Value = { List Token };

    ghost view = { λ s. tokens_after s.line.now s.at };

    ghost invariant = { λ s. s.at ≤ length s.line.now };
}

impl<'a> Tokens<'a> {
    /// The same tokens again. Taking them does not change these.
    pub fn again(&self) -> Tokens<'a>
        ensures { result ≡ self.now }
    {
        Tokens {
            line: self.line,
            at: self.at,
        }
    }

    /// The bytes of the line in which these tokens are found. If there are none, no token is left; if there are, they may still be
    /// only spaces, tabs and a comment.
    #[inline(always)]
    pub fn bytes_left(&self) -> &'a [u8]
        ensures { AreTokensOf self.now result.now }
    {
        &self.line[self.at..]
    }
}

/// The tokens of a line, found in one pass without an allocation.
pub fn tokens_of(line: &[u8]) -> Tokens<'_>
    ensures tokens { result ≡ tokens line.now }
    ensures count { length result ≤ length line.now }
{
    Tokens { line, at: 0 }
}

impl<'a> Iterator for Tokens<'a> {
    type Item = Token<'a>;

    ghost next_gives = { YieldsFirstBy token_of (λ rest. rest) };

    ghost remaining = { item_count (λ rest. rest) };

    #[inline(always)]
    fn next(&mut self) -> Option<Token<'a>> {
        let line = self.line;
        match next_token(line, self.at) {
            None => {
                self.at = line.len();
                None
            }
            Some(token) => {
                self.at = token.start + token.text.len();
                Some(token)
            }
        }
    }
}
