//! The left-hand and right-hand sides of rows and bounds, token by token.

ghost use Rattle.std.specs.Prelude.{◌≡◌};
ghost use Rattle.mpslp_lp_grammar.specs.Items.{Limits, limits_by, flip};
ghost use Rattle.mpslp_lp_grammar.specs.Grammar.{no_limits};
ghost use Rattle.mpslp_lp_grammar.specs.TerminalToken.{limit_of_terminal, terminal_of_token};

use crate::given_limit::GivenLimit;
use crate::signs::Sign;
use crate::terminals::{TerminalKind, TerminalToken};
use mpslp_lp_tokens::Relation;
use mpslp_model::Limit;

/// The limit that a number or an infinity gives after the signs before it; `None` for any other token.
pub fn limit_of_terminal(sign: Sign, token: &TerminalToken<'_>) -> Option<GivenLimit>
    ensures { result ≡ limit_of_terminal sign (terminal_of_token token.now) }
{
    match token.kind {
        TerminalKind::Number(value) => Some(GivenLimit::of(sign.of(value))),
        TerminalKind::Infinity => Some(GivenLimit::infinity(sign)),
        _ => None,
    }
}

/// The relation as seen from the column, if the value is on its left.
pub fn flip(relation: Relation) -> Relation
    ensures { result ≡ flip relation }
{
    match relation {
        Relation::AtMost => Relation::AtLeast,
        Relation::AtLeast => Relation::AtMost,
        Relation::EqualTo => Relation::EqualTo,
    }
}
