//! Worked files in LP: what the program prints for each, and its exit status.

use crate::program::is_example;
use std::test::Fail;

/// Files in LP. An example ends with `~`; its parts are separated by `@`: arguments, input, exit status, standard output, standard
/// error.
const EXAMPLES: &str = "\
canon lp mps -@Minimize
 C:
  + 1 X
  - 5
Subject To
End
@0@NAME
ROWS
 N  C
COLUMNS
    X  C  1
RHS
    RHS  C  5
ENDATA
@~
canon lp mps -@Minimize
 C:
  + 0 X
Subject To
 R:
  + 0 X
  <= 3
 S:
  + 2 Y
  >= -1e20
End
@0@NAME
ROWS
 N  C
 L  R
 N  S
COLUMNS
    X  C  0
    Y  S  2
RHS
    RHS  R  3
ENDATA
@~
canon lp mps -@min
st
1 <= x + y <= 1e20
end
@0@NAME
ROWS
 N  obj
 G  c1
COLUMNS
    x  c1  1
    y  c1  1
RHS
    RHS  c1  1
ENDATA
@~
canon lp mps -@min
st
1e-10 <= x + y <= 1e19
end
@0@NAME
ROWS
 N  obj
 G  c1
COLUMNS
    x  c1  1
    y  c1  1
RHS
    RHS  c1  0.0000000001
RANGES
    RNG  c1  9999999999999999999.9999999999
ENDATA
@~
canon lp mps -@min
st
1e-20 <= x + y <= 1e19
end
@2@@file: RangeInexact c1
~
canon lp mps -@min
st
-9e19 <= x + y <= 9e19
end
@2@@file: LimitTooLarge c1
~
canon lp mps -@min
st
5 <= x + y <= 3
end
@2@@file: LimitsCrossed c1
~
canon lp mps -@min
st
x + y >= inf
end
@2@@line 3: InfiniteValue
~
canon lp lp -@min 3e5x + 3x1 + - 2 y st c: x <= 1 end@0@Minimize
 obj:
  + 300000 x
  + 3 x1
  - 2 y
Subject To
 c:
  + 1 x
  <= 1
End
@~
canon lp lp -@min e9 st end@2@@line 1: NameLikeExponent
~
canon lp lp -@min efficiency end@0@Minimize
 obj:
  + 1 efficiency
Subject To
End
@~
canon lp lp -@min x
st
x >= 1
c2: x <= 5
x <= 4
end
@0@Minimize
 obj:
  + 1 x
Subject To
 c1:
  + 1 x
  >= 1
 c2:
  + 1 x
  <= 5
 c3:
  + 1 x
  <= 4
End
@~
canon lp lp -@min x
st
x >= 1
c2: x <= 5
x <= 4
c3: x <= 9
end
@2@@line 6: DuplicateRow
~
canon lp mps -@min x + y
bounds
x = 1
binaries
x
generals
z
end
@0@NAME
ROWS
 N  obj
COLUMNS
    y  obj  1
    MARKER  'MARKER'  'INTORG'
    x  obj  1
    z  obj  0
    MARKER  'MARKER'  'INTEND'
BOUNDS
 FX  BND  x  1
 PL  BND  z
ENDATA
@~
canon lp mps -@min x + y
bounds
x <= 5
binaries
x
generals
z
end
@2@@file: BinaryBounds x
~
canon lp mps -@min x + y
bounds
x <= -1
binaries
x
generals
z
end
@2@@file: NegativeUpper x
~
canon lp mps -@min x + y
bounds
x >= 2
binaries
x
generals
z
end
@2@@file: BoundsCrossed x
~
canon lp mps -@Maximize
 obj: x1 + 2 x2 + 3 x3 + x4
Subject To
 c1: - x1 + x2 + x3 + 10 x4 <= 20
 c2: x1 - 3 x2 + x3 <= 30
 c3: x2 - 3.5 x4 = 0
Bounds
 0 <= x1 <= 40
 2 <= x4 <= 3
Generals
 x4
End
@0@NAME
OBJSENSE
    MAX
ROWS
 N  obj
 L  c1
 L  c2
 E  c3
COLUMNS
    x1  obj  1
    x1  c1  -1
    x1  c2  1
    x2  obj  2
    x2  c1  1
    x2  c2  -3
    x2  c3  1
    x3  obj  3
    x3  c1  1
    x3  c2  1
    MARKER  'MARKER'  'INTORG'
    x4  obj  1
    x4  c1  10
    x4  c3  -3.5
    MARKER  'MARKER'  'INTEND'
RHS
    RHS  c1  20
    RHS  c2  30
BOUNDS
 UP  BND  x1  40
 LO  BND  x4  2
 UP  BND  x4  3
ENDATA
@";

#[test]
fn worked_files_in_lp_are_read(rt: HostRuntime) -> Result<(), Fail> {
    for example in EXAMPLES.split("~\n") {
        assert!(rt; is_example(rt.alloc(), example)?, "at {example}");
    }
    Ok(())
}
