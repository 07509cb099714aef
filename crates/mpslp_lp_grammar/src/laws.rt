//! Laws of the grammar. Each is the contract of a function that does nothing: to cite the law, call the function.

ghost use Rattle.mpslp_lp_grammar.specs.Laws.{StepsFollowRules, TextsEndAfterEnd};

/// A token is taken as the rules of the grammar say: what they say of some tokens is what they say of those after the first
/// one, in the state that [`step`](crate::step) leads to, or the error that it returns.
pub fn steps_follow_rules()
    ensures { StepsFollowRules }
{}

/// A text is complete only after its `end`, and then it declares what its tokens declared.
pub fn texts_end_after_end()
    ensures { TextsEndAfterEnd }
{}
