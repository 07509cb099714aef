//! Reads a line.

ghost use Rattle.std.specs.Prelude.{◌≡◌, ◌≤◌, ◌∷◌, length, not, if◌then◌else◌, Err, MatchResult};
ghost use Rattle.std.specs.List.{prefix_len};
ghost use Rattle.mpslp_types.specs.FaultOrder.{least_kind};
ghost use Rattle.mpslp_lp_tokens.specs.Token.{begins_comment, outside_comment, tokens};
ghost use Rattle.mpslp_lp_tokens.specs.Scan.{token_of};
ghost use Rattle.mpslp_lp_grammar.specs.AfterToken.{Goes};
ghost use Rattle.mpslp_lp_grammar.specs.Declares.{error_before, lower_ranked_of, IsLeastError, TakesToken};
ghost use Rattle.mpslp_lp.specs.LineByLine.{token_faults, take_tokens, take_line};
ghost use Rattle.mpslp_lp.specs.Laws.{has_legal_bytes};

use crate::plain_phrases::{take_other_phrases, take_phrases};
use crate::plain_terms::{set_state, take_more_terms};
use bstr::ByteSlice;
use mpslp_lines::{LineError, are_legal_bytes, has_legal_length, lower_ranked_kind};
use mpslp_lp_grammar::{Context, State, TerminalToken, classify, step};
use mpslp_lp_tokens::{Token, Tokens, tokens_of};
use mpslp_model::FaultKind;
use std::mem::replace;

/// Of the kinds of two errors, the first of them optional, the one that comes first.
fn lower_ranked_of(first: Option<FaultKind>, second: FaultKind) -> FaultKind
    ensures { result ≡ lower_ranked_of first second }
{
    match first {
        Some(first) => lower_ranked_kind(first, second),
        None => second,
    }
}

/// The least of the lexical errors of tokens: those that a token has wherever it is.
fn lexical_fault_of(tokens: Tokens<'_>) -> Option<FaultKind>
    ensures { result ≡ least_kind (token_faults tokens.entry) }
{
    let mut least = None;
    for raw_token in tokens {
        if let Err(kind) = classify(raw_token.kind, raw_token.text) {
            least = Some(lower_ranked_of(least, kind));
        }
    }
    least
}

/// The error of a line, given an error found before these tokens: a lexical error of one of them is reported instead.
pub(crate) fn error_before(error: LineError, tokens: Tokens<'_>) -> LineError
    ensures { result ≡ error_before (token_faults tokens.entry) error }
{
    match error {
        LineError::Fault(kind) => match lexical_fault_of(tokens) {
            Some(own) => LineError::Fault(own),
            None => LineError::Fault(kind),
        },
        LineError::OutOfMemory => LineError::OutOfMemory,
    }
}

/// The error of a line, given a lexical error of the token before these tokens.
pub(crate) fn least_error(kind: FaultKind, tokens: Tokens<'_>) -> LineError
    ensures { IsLeastError (kind ∷ token_faults tokens.entry) result }
{
    match lexical_fault_of(tokens) {
        Some(own) => LineError::Fault(lower_ranked_kind(kind, own)),
        None => LineError::Fault(kind),
    }
}

/// Takes a token and the plain phrases after it on its line. Returns the tokens after them. After a token with an error, only the
/// lexical errors of the others matter.
#[inline(always)]
fn take_token<'a>(
    context: &mut Context,
    state: &mut State,
    raw_token: Token<'a>,
    left: Tokens<'a>,
) -> Result<Tokens<'a>, LineError>
    ensures { MatchResult result
        (λ rest. (take_tokens context.new state.new rest ≡ take_tokens context.old state.old (token_of raw_token.entry ∷ left.entry)) × (length rest ≤ length left.entry))
        (λ error. TakesToken (take_tokens context.old state.old (token_of raw_token.entry ∷ left.entry)) (Err error) context.new) }
{
    let kind = match classify(raw_token.kind, raw_token.text) {
        Ok(kind) => kind,
        Err(kind) => return Err(least_error(kind, left)),
    };
    let token = TerminalToken {
        kind,
        text: raw_token.text,
    };
    match step(context, replace(state, State::AfterEnd), &token) {
        Ok(next) => set_state(state, next),
        Err(error) => return Err(error_before(error, left)),
    }
    take_phrases(context, state, left)
}

/// Takes a token and the tokens after it on its line. Each is classified once, except where a plain phrase could begin but does
/// not.
#[inline(never)]
fn take_rest_of_line<'a>(
    context: &mut Context,
    state: &mut State,
    first: Token<'a>,
    left: Tokens<'a>,
) -> Result<(), LineError>
    ensures { MatchResult result
        (λ _. take_tokens context.old state.old (token_of first.entry ∷ left.entry) ≡ Goes context.new state.new)
        (λ error. TakesToken (take_tokens context.old state.old (token_of first.entry ∷ left.entry)) (Err error) context.new) }
{
    let mut raw_token = first;
    let mut tokens = left;
    'tokens: loop {
        tokens = take_token(context, state, raw_token, tokens)?;
        match tokens.next() {
            Some(next) => raw_token = next,
            None => return Ok(()),
        }
    }
}

/// Takes the tokens of a line after its plain terms. Most lines have only plain phrases, for which no state is moved.
#[inline(always)]
fn take_others(
    context: &mut Context,
    state: &mut State,
    tokens: Tokens<'_>,
) -> Result<(), LineError>
    ensures { MatchResult result
        (λ _. take_tokens context.old state.old tokens.entry ≡ Goes context.new state.new)
        (λ error. TakesToken (take_tokens context.old state.old tokens.entry) (Err error) context.new) }
{
    let mut left = take_other_phrases(context, state, tokens)?;
    match left.next() {
        Some(first) => take_rest_of_line(context, state, first, left),
        None => Ok(()),
    }
}

/// Takes the tokens of a line. The lines of long rows have only plain terms, after which no other phrase is looked for.
fn take_tokens(context: &mut Context, state: &mut State, line: &[u8]) -> Result<(), LineError>
    ensures { MatchResult result
        (λ _. take_tokens context.old state.old (tokens line.now) ≡ Goes context.new state.new)
        (λ error. TakesToken (take_tokens context.old state.old (tokens line.now)) (Err error) context.new) }
{
    let tokens = tokens_of(line);
    // Right-hand sides of canonical LP begin so, and no term does.
    if let [b' ', b' ', b'<' | b'=' | b'>', ..] = line {
        return take_others(context, state, tokens);
    }
    let left = take_more_terms(context, state, tokens)?;
    if left.bytes_left().is_empty() {
        return Ok(());
    }
    take_others(context, state, left)
}

/// The number of bytes of the line before its comment.
fn outside_len(line: &[u8]) -> usize
    ensures count { result ≡ prefix_len (λ byte. not (begins_comment byte)) line.now }
    ensures within { result ≤ length line.now }
{
    match line.find_byte(b'\\') {
        Some(at) => at,
        None => line.len(),
    }
}

/// The line without its comment.
fn outside_comment(line: &[u8]) -> &[u8]
    ensures { result.now ≡ outside_comment line.now }
{
    &line[..outside_len(line)]
}

/// The error of a line, given the error of its tokens: an illegal byte is reported instead.
fn error_of_line(line: &[u8], error: LineError) -> LineError
    ensures { result ≡ (if has_legal_bytes line.now then error else LineError.Fault FaultKind.BadByte) }
{
    if are_legal_bytes(outside_comment(line)) {
        error
    } else {
        LineError::Fault(FaultKind::BadByte)
    }
}

/// Reads a line, and leaves the state after it, or returns its error.
///
/// A line with an illegal byte has a token that no rule accepts. So the bytes are tested only after an error of the tokens, and
/// most lines are gone over only once.
pub(crate) fn read_line(
    context: &mut Context,
    state: &mut State,
    line: &[u8],
) -> Result<(), LineError>
    ensures { MatchResult result
        (λ _. take_line context.old state.old line.now ≡ Goes context.new state.new)
        (λ error. TakesToken (take_line context.old state.old line.now) (Err error) context.new) }
{
    if !has_legal_length(line) {
        return Err(LineError::Fault(FaultKind::LineTooLong));
    }
    match take_tokens(context, state, line) {
        Ok(()) => Ok(()),
        Err(LineError::OutOfMemory) => Err(LineError::OutOfMemory),
        Err(error) => Err(error_of_line(line, error)),
    }
}
