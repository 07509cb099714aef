//! Worked texts that several tests use.

/// A limit above the length of every text here.
pub(crate) const MUCH: u64 = 1_073_741_824;

pub(crate) const SMALL: &str = "NAME          SMALL
ROWS
 N  COST
 L  LIM1
 G  MYG
COLUMNS
    X  COST  1.0  LIM1  1
    Y  COST  2  MYG  1.50
RHS
    RHS  LIM1  4  MYG  1
ENDATA
";

pub(crate) const SMALL_MPS: &str = "NAME
ROWS
 N  COST
 L  LIM1
 G  MYG
COLUMNS
    X  COST  1
    X  LIM1  1
    Y  COST  2
    Y  MYG  1.5
RHS
    RHS  LIM1  4
    RHS  MYG  1
ENDATA
";

pub(crate) const SMALL_LP: &str = "Minimize
 COST:
  + 1 X
  + 2 Y
Subject To
 LIM1:
  + 1 X
  <= 4
 MYG:
  + 1.5 Y
  >= 1
End
";

/// The small model as a person would write it.
pub(crate) const TYPED_LP: &str = "\\ the same model
MIN
COST: 2Y + X
s.t.
MYG: 1.5 Y => 1
LIM1: X
 <= 4
END
";
