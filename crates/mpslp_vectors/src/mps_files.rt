//! Worked files in MPS: what the program prints for each, and its exit status.

use crate::program::is_example;
use std::test::Fail;

/// Files in MPS. An example ends with `~`; its parts are separated by `@`: arguments, input, exit status, standard output, standard
/// error.
const EXAMPLES: &str = "\
show mps -@ROWS
 N  C
 E  E1
 E  E2
 E  E3
 G  G1
 L  L1
COLUMNS
    X  E1  1  E2  1
    X  E3  1  G1  1
    X  L1  1
RANGES
    RNG  E1  3  E2  -3
    RNG  E3  0  G1  -2
    RNG  L1  -2
RHS
    RHS  E1  10  E2  10
    RHS  E3  10  G1  10
    RHS  L1  10
ENDATA
@0@sense minimize
objective C constant 0 offset 0
rows 5 columns 1 elements 5
row 0 E1 R 10 13 rhs 13 range 3
row 1 E2 R 7 10 rhs 10 range 3
row 2 E3 E 10 10 rhs 10 range 0
row 3 G1 R 10 12 rhs 12 range 2
row 4 L1 R 8 10 rhs 10 range 2
column 0 X continuous 0 inf objective 0
entry 0 0 1
entry 0 1 1
entry 0 2 1
entry 0 3 1
entry 0 4 1
@~
canon mps lp -@ROWS
 N  C
 E  E1
 E  E2
 E  E3
 G  G1
 L  L1
COLUMNS
    X  E1  1  E2  1
    X  E3  1  G1  1
    X  L1  1
RANGES
    RNG  E1  3  E2  -3
    RNG  E3  0  G1  -2
    RNG  L1  -2
RHS
    RHS  E1  10  E2  10
    RHS  E3  10  G1  10
    RHS  L1  10
ENDATA
@2@@row 0: NotLp
~
canon mps mps -@ROWS
 N  C
 E  E1
 E  E2
 E  E3
 G  G1
 L  L1
COLUMNS
    X  E1  1  E2  1
    X  E3  1  G1  1
    X  L1  1
RANGES
    RNG  E1  3  E2  -3
    RNG  E3  0  G1  -2
    RNG  L1  -2
RHS
    RHS  E1  10  E2  10
    RHS  E3  10  G1  10
    RHS  L1  10
ENDATA
@0@NAME
ROWS
 N  C
 G  E1
 G  E2
 E  E3
 G  G1
 G  L1
COLUMNS
    X  E1  1
    X  E2  1
    X  E3  1
    X  G1  1
    X  L1  1
RHS
    RHS  E1  10
    RHS  E2  7
    RHS  E3  10
    RHS  G1  10
    RHS  L1  8
RANGES
    RNG  E1  3
    RNG  E2  3
    RNG  G1  2
    RNG  L1  2
ENDATA
@~
canon mps mps -@NAME          M
ROWS
 N  C
COLUMNS
    M1        'MARKER'                 'INTORG'
    X         C                    1
    M2        'MARKER'                 'INTEND'
RHS
ENDATA
@0@NAME
ROWS
 N  C
COLUMNS
    MARKER  'MARKER'  'INTORG'
    X  C  1
    MARKER  'MARKER'  'INTEND'
BOUNDS
 UP  BND  X  1
ENDATA
@~
canon mps mps -@ROWS
 N  C
COLUMNS
    X  C  1
BOUNDS
 BV BND X 1
ENDATA
@0@NAME
ROWS
 N  C
COLUMNS
    MARKER  'MARKER'  'INTORG'
    X  C  1
    MARKER  'MARKER'  'INTEND'
BOUNDS
 UP  BND  X  1
ENDATA
@~
canon mps mps -@NAME          M
ROWS
 N  C
COLUMNS
    M1        'MARKER'                 'INTORG'
    X         C                    1
    M2        'MARKER'                 'INTEND'
RHS
BOUNDS
 PL BND X
ENDATA
@0@NAME
ROWS
 N  C
COLUMNS
    MARKER  'MARKER'  'INTORG'
    X  C  1
    MARKER  'MARKER'  'INTEND'
BOUNDS
 PL  BND  X
ENDATA
@~
canon mps lp -@ROWS
 N  C
COLUMNS
    X  C  1
RHS
    RHS  C  5
ENDATA
@0@Minimize
 C:
  + 1 X
  - 5
Subject To
End
@~
canon mps mps -@ROWS
 N  C
COLUMNS
    X  C  1
BOUNDS
 UP B X -1
ENDATA
@2@@file: NegativeUpper X
~
canon mps mps -@ROWS
 N  C
COLUMNS
    X  C  1
BOUNDS
 UP B X -1
 MI B X
ENDATA
@0@NAME
ROWS
 N  C
COLUMNS
    X  C  1
BOUNDS
 MI  BND  X
 UP  BND  X  -1
ENDATA
@~
canon mps mps -@ROWS
 N  C
COLUMNS
    X  C  1
BOUNDS
 UP B X -1
 LO B X 0
ENDATA
@2@@file: BoundsCrossed X
~
canon mps mps -@ROWS
 N  C
COLUMNS
    X  C  1
BOUNDS
 UP B X 0
ENDATA
@0@NAME
ROWS
 N  C
COLUMNS
    X  C  1
BOUNDS
 FX  BND  X  0
ENDATA
@~
canon mps mps -@ROWS
 N  C
COLUMNS
    X  C  1
BOUNDS
 LO B X -1e30
 UP B X 1e30
ENDATA
@0@NAME
ROWS
 N  C
COLUMNS
    X  C  1
BOUNDS
 FR  BND  X
ENDATA
@~
canon mps mps -@ROWS
 N  C
COLUMNS
    X  C  1
BOUNDS
 FX B X 1e20
ENDATA
@2@@line 6: InfiniteValue
~
canon mps mps -@NAME
ROWS
 N  C
 L  R
 N  S
COLUMNS
    X  C  0
    Y  S  2
RHS
    RHS  R  3
ENDATA
@0@NAME
ROWS
 N  C
 L  R
 N  S
COLUMNS
    X  C  0
    Y  S  2
RHS
    RHS  R  3
ENDATA
@~
canon mps lp -@NAME
ROWS
 N  C
 L  R
 N  S
COLUMNS
    X  C  0
    Y  S  2
RHS
    RHS  R  3
ENDATA
@0@Minimize
 C:
  + 0 X
Subject To
 R:
  + 0 X
  <= 3
 S:
  + 2 Y
  >= -1e20
End
@~
canon mps mps -@NAME          SMALL
ROWS
 N  COST
 L  LIM1
 G  MYG
COLUMNS
    X  COST  1.0  LIM1  1
    Y  COST  2  MYG  1.50
RHS
    RHS  LIM1  -1e20  MYG  1
ENDATA
@2@@file: InfiniteLimit LIM1
~
canon mps mps -@NAME          SMALL
ROWS
 N  COST
 L  LIM1
 G  MYG
COLUMNS
    X  COST  1.0  LIM1  1
    Y  COST  2  MYG  1.50
RHS
    RHS  LIM1  4  MYG  9e19
RANGES
    R  MYG  9e19
ENDATA
@2@@file: LimitTooLarge MYG
~
canon mps lp -@NAME
ROWS
 N  C
COLUMNS
    x-1  C  1
ENDATA
@2@@column 0: NotLp
~
canon mps mps -@NAME
ROWS
 N  C
COLUMNS
    x-1  C  1
ENDATA
@0@NAME
ROWS
 N  C
COLUMNS
    x-1  C  1
ENDATA
@~
canon mps lp -@NAME
ROWS
 N  C
COLUMNS
    free  C  1
ENDATA
@2@@column 0: NotLp
~
canon mps mps -@NAME
ROWS
 N  C
COLUMNS
    free  C  1
ENDATA
@0@NAME
ROWS
 N  C
COLUMNS
    free  C  1
ENDATA
@~
canon mps mps -@NAME          SMALL
ROWS
 N  COST
 L  LIM1
 G  MYG
COLUMNS
    X  COST  1.0  LIM1  1
    Y  COST  2  MYG  1.50
RHS
    RHS  LIM1  4  MYG  1
@2@@file: MissingEnd
~
canon mps mps -@NAME
OBJSENSE MAX
ROWS
 N  obj
 L  c1
 L  c2
 E  c3
COLUMNS
    x1  obj  1
    x1  c1  -1
    x1  c2  1
    x2  obj  2
    x2  c1  1
    x2  c2  -3
    x2  c3  1
    x3  obj  3
    x3  c1  1
    x3  c2  1
    MARKER  'MARKER'  'INTORG'
    x4  obj  1
    x4  c1  10
    x4  c3  -3.5
    MARKER  'MARKER'  'INTEND'
RHS
    RHS  c1  20
    RHS  c2  30
BOUNDS
 UP  BND  x1  40
 LO  BND  x4  2
 UP  BND  x4  3
ENDATA
@0@NAME
OBJSENSE
    MAX
ROWS
 N  obj
 L  c1
 L  c2
 E  c3
COLUMNS
    x1  obj  1
    x1  c1  -1
    x1  c2  1
    x2  obj  2
    x2  c1  1
    x2  c2  -3
    x2  c3  1
    x3  obj  3
    x3  c1  1
    x3  c2  1
    MARKER  'MARKER'  'INTORG'
    x4  obj  1
    x4  c1  10
    x4  c3  -3.5
    MARKER  'MARKER'  'INTEND'
RHS
    RHS  c1  20
    RHS  c2  30
BOUNDS
 UP  BND  x1  40
 LO  BND  x4  2
 UP  BND  x4  3
ENDATA
@~
canon mps mps -@NAME
OBJSENSE
    MAXIMIZE
ROWS
 N  obj
 L  c1
 L  c2
 E  c3
COLUMNS
    x1  obj  1
    x1  c1  -1
    x1  c2  1
    x2  obj  2
    x2  c1  1
    x2  c2  -3
    x2  c3  1
    x3  obj  3
    x3  c1  1
    x3  c2  1
    MARKER  'MARKER'  'INTORG'
    x4  obj  1
    x4  c1  10
    x4  c3  -3.5
    MARKER  'MARKER'  'INTEND'
RHS
    RHS  c1  20
    RHS  c2  30
BOUNDS
 UP  BND  x1  40
 LO  BND  x4  2
 UP  BND  x4  3
ENDATA
@0@NAME
OBJSENSE
    MAX
ROWS
 N  obj
 L  c1
 L  c2
 E  c3
COLUMNS
    x1  obj  1
    x1  c1  -1
    x1  c2  1
    x2  obj  2
    x2  c1  1
    x2  c2  -3
    x2  c3  1
    x3  obj  3
    x3  c1  1
    x3  c2  1
    MARKER  'MARKER'  'INTORG'
    x4  obj  1
    x4  c1  10
    x4  c3  -3.5
    MARKER  'MARKER'  'INTEND'
RHS
    RHS  c1  20
    RHS  c2  30
BOUNDS
 UP  BND  x1  40
 LO  BND  x4  2
 UP  BND  x4  3
ENDATA
@~
canon mps mps -@NAME
OBJSENSE
\t\tMAX
ROWS
 N\tobj
 L\tc1
 L\tc2
 E\tc3
COLUMNS
\t\tx1\tobj\t1
\t\tx1\tc1\t-1
\t\tx1\tc2\t1
\t\tx2\tobj\t2
\t\tx2\tc1\t1
\t\tx2\tc2\t-3
\t\tx2\tc3\t1
\t\tx3\tobj\t3
\t\tx3\tc1\t1
\t\tx3\tc2\t1
\t\tMARKER\t'MARKER'\t'INTORG'
\t\tx4\tobj\t1
\t\tx4\tc1\t10
\t\tx4\tc3\t-3.5
\t\tMARKER\t'MARKER'\t'INTEND'
RHS
\t\tRHS\tc1\t20
\t\tRHS\tc2\t30
BOUNDS
 UP\tBND\tx1\t40
 LO\tBND\tx4\t2
 UP\tBND\tx4\t3
ENDATA
@0@NAME
OBJSENSE
    MAX
ROWS
 N  obj
 L  c1
 L  c2
 E  c3
COLUMNS
    x1  obj  1
    x1  c1  -1
    x1  c2  1
    x2  obj  2
    x2  c1  1
    x2  c2  -3
    x2  c3  1
    x3  obj  3
    x3  c1  1
    x3  c2  1
    MARKER  'MARKER'  'INTORG'
    x4  obj  1
    x4  c1  10
    x4  c3  -3.5
    MARKER  'MARKER'  'INTEND'
RHS
    RHS  c1  20
    RHS  c2  30
BOUNDS
 UP  BND  x1  40
 LO  BND  x4  2
 UP  BND  x4  3
ENDATA
@~
canon mps mps -@NAME
OBJNAME
    S
ROWS
 N  C
 L  R
 N  S
COLUMNS
    X  C  1  R  1
    X  S  2
ENDATA
@0@NAME
ROWS
 N  S
 N  C
 L  R
COLUMNS
    X  S  2
    X  C  1
    X  R  1
ENDATA
@~
canon mps mps -@NAME
OBJNAME R
ROWS
 N  C
 L  R
 N  S
COLUMNS
    X  C  1  R  1
ENDATA
@2@@line 7: UnknownRow
";

#[test]
fn worked_files_in_mps_are_read(rt: HostRuntime) -> Result<(), Fail> {
    for example in EXAMPLES.split("~\n") {
        assert!(rt; is_example(rt.alloc(), example)?, "at {example}");
    }
    Ok(())
}
