//! Laws of the tokens of a line. Each is the contract of a function that does nothing: to cite the law, call the function.

ghost use Rattle.mpslp_lp_tokens.specs.Laws.{LinesAreTokens, LongestAreTokens, TokensAreLongest, TokensAreSlices, HaveLpBytes};

use crate::tokens::Tokens;

/// The tokens of a line are consecutive slices of it that do not overlap, whatever its bytes are.
pub fn tokens_are_slices()
    ensures { TokensAreSlices }
{}

/// Each line, whatever its bytes are, consists of its tokens in order, the spaces and tabs between them, and its comment: a
/// backslash and the rest of the line.
pub fn lines_are_tokens()
    ensures { LinesAreTokens }
{}

/// The tokens of a line are the longest ones: after spaces and tabs each is the longest text at its place that is a token, or
/// one unknown byte if no token begins there; after the last one comes a comment or nothing.
pub fn tokens_are_longest()
    ensures { TokensAreLongest }
{}

/// Only the tokens of a line are of that form. Both laws together define them without a walk over the line.
pub fn longest_are_tokens()
    ensures { LongestAreTokens }
{}

/// Each byte of a word of a line may be in an LP name.
pub fn each_word_has_lp_bytes(tokens: &Tokens<'_>)
    ensures { HaveLpBytes tokens.now }
{
    let _at = tokens.at;
}
