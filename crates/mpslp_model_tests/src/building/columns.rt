//! Tests of the bounds and the types of columns, and of their accessors.

use super::first_wrong;
use std::test::Fail;

/// Two calls for the bounds of a column, and the line that the accessors give.
const BOUNDED: &str = "\
objective C; column X; bounds X - -; bounds X - - => column X continuous 0 inf objective 0
objective C; column X; bounds X - -1; bounds X - - => NegativeUpper X
objective C; column X; bounds X - -1; bounds X -1e20 - => column X continuous -inf -1 objective 0
objective C; column X; bounds X - -1; bounds X 0 - => BoundsCrossed X
objective C; column X; bounds X - 0; bounds X - - => column X continuous 0 0 objective 0
objective C; column X; bounds X 2 2.50; bounds X - - => column X continuous 2 2.5 objective 0";

/// Two calls for an integer column, and the line that the accessors give.
const INTEGER: &str = "\
objective C; column X; marked X; bounds X - - => column X integer 0 1 objective 0
objective C; column X; marked X; bounds X 0 - => column X integer 0 inf objective 0
objective C; column X; integer X; bounds X - - => column X integer 0 inf objective 0";

/// Two calls for a binary column, and the line that the accessors give.
const BINARY: &str = "\
objective C; column X; binary X; bounds X - - => column X integer 0 1 objective 0
objective C; column X; binary X; bounds X 1 - => column X integer 1 1 objective 0
objective C; column X; bounds X 0.5 1; binary X => column X integer 0.5 1 objective 0
objective C; column X; binary X; bounds X - 2 => BinaryBounds X
objective C; column X; binary X; bounds X -1 - => BinaryBounds X
objective C; column X; binary X; bounds X 2 - => BoundsCrossed X
objective C; column X; binary X; bounds X - -1 => NegativeUpper X";

/// Two calls for a semi-continuous column, and the line that the accessors give.
const SEMI: &str = "\
objective C; column X; semi X; bounds X - 4 => column X semi 0 4 objective 0
objective C; column X; bounds X 4 4; semi X => column X semi 4 4 objective 0
objective C; column X; semi X; bounds X - - => SemiBounds X
objective C; column X; semi X; bounds X - 0 => SemiBounds X
objective C; column X; semi X; bounds X -1 4 => SemiBounds X";

#[test]
fn bounds_columns_by_their_sides(rt: HostRuntime) -> Result<(), Fail> {
    assert_eq!(rt; first_wrong(rt.alloc(), BOUNDED)?, None);
    Ok(())
}

#[test]
fn bounds_integer_columns(rt: HostRuntime) -> Result<(), Fail> {
    assert_eq!(rt; first_wrong(rt.alloc(), INTEGER)?, None);
    Ok(())
}

#[test]
fn bounds_binary_columns(rt: HostRuntime) -> Result<(), Fail> {
    assert_eq!(rt; first_wrong(rt.alloc(), BINARY)?, None);
    Ok(())
}

#[test]
fn bounds_semi_columns(rt: HostRuntime) -> Result<(), Fail> {
    assert_eq!(rt; first_wrong(rt.alloc(), SEMI)?, None);
    Ok(())
}
