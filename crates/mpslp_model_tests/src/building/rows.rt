//! Tests of rows and of their accessors.

use super::{first_wrong, outcome};
use std::test::Fail;

/// Rows by type, right-hand side and range, and the line that the accessors give. The range is declared first.
const ROWS: &str = "\
objective C; row R E; column X; range R 3; rhs R 10 => row R R 10 13 rhs 13 range 3
objective C; row R E; column X; range R -3; rhs R 10 => row R R 7 10 rhs 10 range 3
objective C; row R E; column X; range R 0; rhs R 10 => row R E 10 10 rhs 10 range 0
objective C; row R G; column X; range R -2; rhs R 10 => row R R 10 12 rhs 12 range 2
objective C; row R L; column X; range R -2; rhs R 10 => row R R 8 10 rhs 10 range 2
objective C; row R L; column X; bounds X - -; rhs R 1e20 => row R N -inf inf rhs 0 range 0
objective C; row R N; column X; bounds X - -; rhs R 1 => row R N -inf inf rhs 0 range 0
objective C; row R L; column X; bounds X - -; rhs R -1e20 => InfiniteLimit R
objective C; row R G; column X; bounds X - -; rhs R 1e20 => InfiniteLimit R
objective C; row R E; column X; bounds X - -; rhs R 1e20 => InfiniteLimit R
objective C; row R G; column X; range R 9e19; rhs R 9e19 => LimitTooLarge R
objective C; row R G; column X; range R 1e-20; rhs R 1e19 => RangeInexact R
objective C; row R G; column X; range R 1e-10; rhs R 1e19 => row R R 1e19 10000000000000000000.0000000001 rhs 10000000000000000000.0000000001 range 0.0000000001";

#[test]
fn limits_rows_by_type_right_side_and_range(rt: HostRuntime) -> Result<(), Fail> {
    assert_eq!(rt; first_wrong(rt.alloc(), ROWS)?, None);
    Ok(())
}

/// A model with one row of the last and the first of three columns, one row of all, and one of none.
const ROWS_OF_COLUMNS: &str = "\
objective f
row s L
row r L
row t L
column z
coefficient r z 3
coefficient s z 6
column x
coefficient s x 4
coefficient r x 1
column y
coefficient s y 5";

#[test]
fn rows_list_their_columns_in_order(rt: HostRuntime) -> Result<(), Fail> {
    let answer = outcome(rt.alloc(), ROWS_OF_COLUMNS)?;
    let expected = b"minimize f constant 0 offset 0
row r L -inf 0 rhs 0 range 0
term x 1
term z 3
row s L -inf 0 rhs 0 range 0
term x 4
term y 5
term z 6
row t L -inf 0 rhs 0 range 0
column x ";
    assert!(rt; answer.starts_with(expected));
    Ok(())
}
