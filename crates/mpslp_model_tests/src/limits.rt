//! Tests of the order of limits.

use crate::texts::side;
use mpslp_types::Limit;

#[test]
fn puts_sides_in_their_order(rt: HostRuntime) {
    let one = side("1");
    assert!(rt; side("-1e20") == Limit::MinusInf);
    assert!(rt; one.is_at_most(one) && one.is_at_most(Limit::PlusInf));
    assert!(rt; Limit::MinusInf.is_at_most(one) && !one.is_at_most(Limit::MinusInf));
    assert!(rt; Limit::PlusInf.is_at_most(Limit::PlusInf) && !Limit::PlusInf.is_at_most(one));
}
