//! Tests of names that are legal in LP, and of others.

use mpslp_types::{Name, NameFault};
use std::alloc::Global;
use std::test::Fail;

/// Names that are legal in LP, separated by spaces.
const LEGAL: &str = "x1 x(1,2).a#b !\"#$%&()/,;?@_'{}|~` ex x.3 ends to";

/// Names that are not legal in LP, separated by spaces.
const OTHERS: &str = "e5x E 3x .x x+y x:y x^2 Free S.T. sos1 semis";

fn is_lp(alloc: Global, text: &str) -> Result<bool, NameFault> {
    Ok(Name::new(alloc, text.as_bytes())?.is_lp())
}

/// The first of these names that is legal in LP, or that is not.
fn first_with<'a>(
    alloc: Global,
    names: &'a str,
    is_legal: bool,
) -> Result<Option<&'a str>, NameFault> {
    for text in names.split(' ') {
        if is_lp(alloc, text)? == is_legal {
            return Ok(Some(text));
        }
    }
    Ok(None)
}

#[test]
fn finds_names_that_are_legal_in_lp(rt: HostRuntime) -> Result<(), Fail> {
    let refused = first_with(rt.alloc(), LEGAL, false)?;
    let taken = first_with(rt.alloc(), OTHERS, true)?;
    assert_eq!(rt; (refused, taken), (None, None));
    Ok(())
}
