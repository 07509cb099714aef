//! The result of taking a token.

ghost use Rattle.std.specs.Prelude.{◌≡◌, unwrap_or, Err};
ghost use Rattle.mpslp_lines.specs.declared.errors.LineError.{LineError};
ghost use Rattle.mpslp_lp_grammar.specs.Phrase.{terminal_fault};
ghost use Rattle.mpslp_lp_grammar.specs.TerminalToken.{terminal_of_token};
ghost use Rattle.mpslp_lp_grammar.specs.Declares.{TakesToken, answer_at};
ghost use Rattle.mpslp_lp_grammar.specs.AfterToken.{refuse};

use crate::context::Context;
use crate::states::{Place, State};
use crate::terminals::{TerminalKind, TerminalToken};
use mpslp_lines::LineError;
use mpslp_model::FaultKind;

/// Starts a phrase at a place, if the declarations before it succeeded.
pub(crate) fn at_place(answer: Result<(), LineError>, place: Place) -> Result<State, LineError>
    ensures { result ≡ answer_at place answer }
{
    match answer {
        Ok(()) => Ok(State::Between(place)),
        Err(error) => Err(error),
    }
}

/// Rejects a token with an error of the grammar. A section word in the wrong place has its own error, which is reported instead.
pub(crate) fn refuse(
    context: &Context,
    token: &TerminalToken<'_>,
    kind: FaultKind,
) -> Result<State, LineError>
    ensures { TakesToken (refuse context.now (terminal_of_token token.now) kind) result context.now }
{
    match token.kind {
        TerminalKind::Opens(word) => match context.sections_seen.section_fault(word.section()) {
            Some(own) => Err(LineError::Fault(own)),
            None => Err(LineError::Fault(kind)),
        },
        _ => Err(LineError::Fault(kind)),
    }
}
