//! The tokens with which plain phrases go on: a token is taken only if it is of the kind that is asked for and has no lexical error.

ghost use Rattle.std.specs.Prelude.{List, IfSome, IsTrue};
ghost use Rattle.mpslp_types.specs.Name.{IsMpsName};
ghost use Rattle.mpslp_lp_grammar.specs.Terminal.{Terminal};
ghost use Rattle.mpslp_lp_grammar.specs.TerminalToken.{HasLegalName, terminal_of_token};
ghost use Rattle.mpslp_lp_tokens.specs.Token.{Token};
ghost use Rattle.mpslp_lp.specs.PlainTerm.{Begins};
ghost use Rattle.mpslp_lp.specs.PlainPhrase.{BeginsWithLimit, BeginsWithSide, BeginsWithRight};

use mpslp_lp_grammar::{
    GivenLimit, Sign, TerminalKind, TerminalToken, classify_found, limit_of_terminal,
};
use mpslp_lp_tokens::laws::each_word_has_lp_bytes;
use mpslp_lp_tokens::{Relation, TokenKind, Tokens};

/// The next token, if it has no lexical error.
#[inline(always)]
pub(crate) fn next_terminal<'a>(tokens: &mut Tokens<'a>) -> Option<TerminalToken<'a>>
    ensures next { IfSome result (λ token. Begins tokens.old (terminal_of_token token) tokens.new) }
    ensures legal { IfSome result (λ token. HasLegalName token) }
{
    each_word_has_lp_bytes(tokens);
    let token = tokens.next()?;
    match classify_found(token.kind, token.text) {
        Ok(kind) => Some(TerminalToken {
            kind,
            text: token.text,
        }),
        Err(_) => None,
    }
}

/// The next token, if it is a sign.
#[inline(always)]
pub(crate) fn next_sign(tokens: &mut Tokens<'_>) -> Option<Sign>
    ensures { IfSome result (λ sign. Begins tokens.old (Terminal.Sign sign) tokens.new) }
{
    let token = tokens.next()?;
    match token.kind {
        TokenKind::Plus => Some(Sign::Plus),
        TokenKind::Minus => Some(Sign::Minus),
        _ => None,
    }
}

/// The next token, if it is a name.
#[inline(always)]
pub(crate) fn next_name<'a>(tokens: &mut Tokens<'a>) -> Option<&'a [u8]>
    ensures next { IfSome result (λ name. Begins tokens.old (Terminal.Name name.now) tokens.new) }
    ensures legal { IfSome result (λ name. IsMpsName name.now) }
{
    each_word_has_lp_bytes(tokens);
    let token = tokens.next()?;
    match classify_found(token.kind, token.text) {
        Ok(TerminalKind::Name) => Some(token.text),
        _ => None,
    }
}

/// Takes the next token if it is a colon. Returns whether it is one.
#[inline(always)]
pub(crate) fn takes_colon(tokens: &mut Tokens<'_>) -> bool
    ensures { IsTrue result → Begins tokens.old Terminal.Colon tokens.new }
{
    match tokens.next() {
        Some(token) => match token.kind {
            TokenKind::Colon => true,
            _ => false,
        },
        None => false,
    }
}

/// The next token, if it is a relation.
#[inline(always)]
pub(crate) fn next_relation(tokens: &mut Tokens<'_>) -> Option<Relation>
    ensures { IfSome result (λ relation. Begins tokens.old (Terminal.Compares relation) tokens.new) }
{
    let token = tokens.next()?;
    match token.kind {
        TokenKind::Less => Some(Relation::AtMost),
        TokenKind::Greater => Some(Relation::AtLeast),
        TokenKind::Equal => Some(Relation::EqualTo),
        _ => None,
    }
}

/// The limit that the next token gives after this sign.
#[inline(always)]
fn next_unsigned(sign: Sign, tokens: &mut Tokens<'_>) -> Option<GivenLimit>
    ensures { IfSome result (λ limit. BeginsWithLimit tokens.old sign limit tokens.new) }
{
    let Some(token) = next_terminal(tokens) else {
        return None;
    };
    match limit_of_terminal(sign, &token) {
        Some(limit) => Some(limit),
        None => None,
    }
}

/// The limit that begins with this token: the token gives it, or it is a sign and the next token gives it.
#[inline(always)]
pub(crate) fn limit_from(token: &TerminalToken<'_>, tokens: &mut Tokens<'_>) -> Option<GivenLimit>
    ensures { (found : List Token) → Begins found (terminal_of_token token.now) tokens.old → IfSome result (λ limit. BeginsWithSide found limit tokens.new) }
{
    match token.kind {
        TerminalKind::Sign(sign) => next_unsigned(sign, tokens),
        _ => match limit_of_terminal(Sign::Plus, token) {
            Some(limit) => Some(limit),
            None => None,
        },
    }
}

/// The limit that comes next: a sign or none, and a number or an infinity.
#[inline(always)]
fn next_limit(tokens: &mut Tokens<'_>) -> Option<GivenLimit>
    ensures { IfSome result (λ limit. BeginsWithSide tokens.old limit tokens.new) }
{
    let Some(token) = next_terminal(tokens) else {
        return None;
    };
    limit_from(&token, tokens)
}

/// A relation and the limit after it.
#[derive(Drop)]
pub(crate) struct RightSide {
    pub(crate) relation: Relation,
    pub(crate) limit: GivenLimit,
}

/// The limit that comes next, after this relation.
#[inline(always)]
pub(crate) fn right_side_after(relation: Relation, tokens: &mut Tokens<'_>) -> Option<RightSide>
    ensures { (found : List Token) → Begins found (Terminal.Compares relation) tokens.old
        → IfSome result (λ right. BeginsWithRight found right.relation right.limit tokens.new) }
{
    let limit = next_limit(tokens)?;
    Some(RightSide { relation, limit })
}

/// The relation and the limit that come next.
#[inline(always)]
pub(crate) fn next_right_side(tokens: &mut Tokens<'_>) -> Option<RightSide>
    ensures { IfSome result (λ right. BeginsWithRight tokens.old right.relation right.limit tokens.new) }
{
    let relation = next_relation(tokens)?;
    right_side_after(relation, tokens)
}
