//! Tests of what LP files declare.

use super::{first_other_answer_of, first_wrong, is_outcome};
use std::test::Fail;

/// Calls that LP files make in turn, and the error of each that fails.
const OF_LP: &str = "\
objective f
constant 5
constant 5: DuplicateRhs
rhs f -5: DuplicateRhs
limits f 1e20 4: DuplicateRow
limits r 1e20 1e20: InfiniteValue
limits r -1e20 -1e20: InfiniteValue
limits r -1e20 4
limits r -1e20 4: DuplicateRow
row r L: DuplicateRow
rhs r 4: DuplicateRhs
range r 1: DuplicateRange
row n N
limits n 0 4: DuplicateRow
binary x: UnknownColumn
column x
binary x
binary x
integer x
semi x: SemiContinuous
column y
semi y
binary y: SemiContinuous";

/// Calls in turn, of which one declares the constant as the right-hand side of the objective, and the error of each that fails.
const CONSTANTS: &str = "\
objective f
rhs f -5
constant 5: DuplicateRhs
rhs f -5: DuplicateRhs";

#[test]
fn answers_what_lp_declares(rt: HostRuntime) {
    assert_eq!(rt; first_other_answer_of(rt.alloc(), OF_LP), None);
}

#[test]
fn takes_one_constant(rt: HostRuntime) {
    assert_eq!(rt; first_other_answer_of(rt.alloc(), CONSTANTS), None);
}

/// Rows by their limits, and the line that the accessors give.
const LIMITED: &str = "\
objective C; limits R -1e20 4; column X => row R L -inf 4 rhs 4 range 0
objective C; limits R 4.0 1e20; column X => row R G 4 inf rhs 4 range 0
objective C; limits R -1e20 1e20; column X => row R N -inf inf rhs 0 range 0
objective C; limits R 4 4.0; column X => row R E 4 4 rhs 4 range 0
objective C; limits R -2 4; column X => row R R -2 4 rhs 4 range 6
objective C; limits R 4 3; column X => LimitsCrossed R
objective C; limits R -9e19 9e19; column X => LimitTooLarge R
objective C; limits R 9e19 -9e19; column X => LimitTooLarge R
objective C; limits R 1e-20 1e19; column X => RangeInexact R
objective C; limits R 1e19 1e-20; column X => RangeInexact R
objective C; limits R 1e-10 1e19; column X => row R R 0.0000000001 1e19 rhs 1e19 range 9999999999999999999.9999999999";

#[test]
fn limits_rows_by_their_limits(rt: HostRuntime) -> Result<(), Fail> {
    assert_eq!(rt; first_wrong(rt.alloc(), LIMITED)?, None);
    Ok(())
}

/// A model with a constant.
const WITH_CONSTANT: &str = "\
objective f
constant -2.50
column x";

#[test]
fn returns_the_constant_as_declared(rt: HostRuntime) -> Result<(), Fail> {
    let expected = "minimize f constant -2.5 offset 2.5
column x continuous 0 inf objective 0
";
    assert!(rt; is_outcome(rt.alloc(), WITH_CONSTANT, expected)?);
    Ok(())
}
