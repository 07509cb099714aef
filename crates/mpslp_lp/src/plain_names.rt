//! Names that a section lists, taken as a whole and not token by token.

ghost use Rattle.std.specs.Prelude.{List};
ghost use Rattle.mpslp_types.specs.Name.{IsMpsName};
ghost use Rattle.mpslp_lp_grammar.specs.FirstToken.{listed_at};
ghost use Rattle.mpslp_lp_grammar.specs.Terminal.{Terminal};
ghost use Rattle.mpslp_lp_grammar.specs.declared.states.State.{State};
ghost use Rattle.mpslp_lp_tokens.specs.Token.{Token};
ghost use Rattle.mpslp_lp.specs.PlainTerm.{Begins};
ghost use Rattle.mpslp_lp.specs.PlainPhrase.{TakesSome, TakesUpTo};

use crate::plain_tokens::next_name;
use crate::read_line::error_before;
use mpslp_lines::LineError;
use mpslp_lp_grammar::{Context, ListSection, declare_listed};
use mpslp_lp_tokens::Tokens;

/// Takes a name. `left` are the tokens after it on its line: their lexical errors are reported before the error of the name.
#[inline(always)]
fn take_name(
    context: &mut Context,
    section: ListSection,
    column: &[u8],
    left: Tokens<'_>,
) -> Result<(), LineError>
    requires { IsMpsName column.now }
    ensures { (found : List Token) → Begins found (Terminal.Name column.now) left.entry
        → TakesUpTo context.old (State.Between (listed_at section)) found result context.new (State.Between (listed_at section)) left.entry }
{
    match declare_listed(context, section, column) {
        Ok(()) => Ok(()),
        Err(error) => Err(error_before(error, left)),
    }
}

/// Takes the names of a section that come next. Returns the tokens after them.
#[inline(never)]
pub(crate) fn take_names<'a>(
    context: &mut Context,
    section: ListSection,
    tokens: Tokens<'a>,
) -> Result<Tokens<'a>, LineError>
    ensures { TakesSome context.old (State.Between (listed_at section)) tokens.entry result context.new (State.Between (listed_at section)) }
{
    let mut tokens = tokens;
    'names: loop {
        let mut left = tokens.again();
        let Some(column) = next_name(&mut left) else {
            return Ok(tokens);
        };
        take_name(context, section, column, left.again())?;
        tokens = left;
    }
}
