//! A small file with a few lines changed, and the error that it then has.

use crate::program::run_program;
use std::alloc::{AllocError, Global};
use std::test::Fail;

const MPS: &str = "\
NAME
ROWS
 N  C
 L  R
COLUMNS
    X  C  1
    X  R  1
    Y  C  1
RHS
    A  R  1
BOUNDS
 UP  B  X  4
ENDATA
";

/// Changes of the MPS file, each with its error after `|`. A change is the number of a line and what is put in its place, which is
/// nothing, a line, or several ones separated by `/`; changes are separated by `;`.
const CHANGES_OF_MPS: &str = "\
13:QUADOBJ|line 13: Quadratic
13:SOS|line 13: Sos
13:INDICATORS|line 13: Indicator
13:LAZYCONS|line 13: UnknownSection
13:ROWS|line 13: SectionRepeated
13:OBJSENSE MAX|line 13: SectionOrder
4: X  R|line 4: BadType
7:    X  Q  1|line 7: UnknownRow
7:    X  C  2|line 7: DuplicateEntry
7:    X  R  1x|line 7: BadNumber
7:    X  R  1  C|line 7: FieldCount
8:    M  'MARKER'  'SOSORG'|line 8: Sos
8:    M  'MARKER'  'INTEND'|line 8: BadMarker
8:    Y  C  1/    X  R  1|line 9: ColumnSplit
10:    A  R  1/    A2  R  1|line 11: SecondSet
10:    A  R  1/    A  R  1|line 11: DuplicateRhs
12: UP  B  Z  4|line 12: UnknownColumn
12: UP  B  X  -1e30|line 12: InfiniteValue
12: UP  B  X  4/ UP  B  X  4|line 13: DuplicateBound
11:RANGES;12:    G  C  1|line 12: RangeOnFree
6:;7:;8:;11:;12:|file: NoColumns
3: L  obj;4:|line 4: DuplicateRow
4: L  aaaaaaaaaaaaaaaaaaaaaaaaaaaaaaaaaaaaaaaaaaaaaaaaaaaaaaaaaaaaaaaaaaaaaaaaaaaaaaaaaaaaaaaaaaaaaaaaaaaaaaaaaaaaaaaaaaaaaaaaaaaaaaaaaaaaaaaaaaaaaaaaaaaaaaaaaaaaaaaaaaaaaaaaaaaaaaaaaaaaaaaaaaaaaaaaaaaaaaaaaaaaaaaaaaaaaaaaaaaaaaaaaaaaaaaaaaaaaaaaaaaaaaaaaaaaaaaa|line 4: NameLength
4: L  aaaaaaaaaaaaaaaaaaaaaaaaaaaaaaaaaaaaaaaaaaaaaaaaaaaaaaaaaaaaaaaaaaaaaaaaaaaaaaaaaaaaaaaaaaaaaaaaaaaaaaaaaaaaaaaaaaaaaaaaaaaaaaaaaaaaaaaaaaaaaaaaaaaaaaaaaaaaaaaaaaaaaaaaaaaaaaaaaaaaaaaaaaaaaaaaaaaaaaaaaaaaaaaaaaaaaaaaaaaaaaaaaaaaaaaaaaaaaaaaaaaaaaaaaaaaaaa|line 7: UnknownRow
12: SC  B  X  0|file: SemiBounds X
12: SC  B  X  4/ BV  B  X|line 13: SemiContinuous";

const LP: &str = "\
min x
st
x >= 0
end
";

/// The same for the LP file.
const CHANGES_OF_LP: &str = "\
3:[ x ^ 2 ] <= 1|line 3: Quadratic
3:sos1|line 3: Sos
3:c: y = 1 -> x <= 3|line 3: Indicator
3:x + 3 <= 5|line 3: ConstantInRow
3:1 <= x >= 0|line 3: MixedSenses
3:x + x <= 1|line 3: DuplicateEntry
3:x <= 4 <= 5|line 3: BadToken
3:max|line 3: SectionRepeated";

/// What changes put in the place of a line, if they change it.
fn put_instead<'a>(changes: &'a str, number: u64) -> Option<&'a str> {
    for change in changes.split(';') {
        let (place, lines) = change.split_once(':').unwrap_or(("", ""));
        if matches!(place.parse::<u64>(), Ok(found) if found == number) {
            return Some(lines);
        }
    }
    None
}

/// Appends lines that are separated by `/`.
fn put_lines(text: &mut String, lines: &str) -> Result<(), AllocError> {
    for line in lines.split('/').filter(|line| !line.is_empty()) {
        text.push_str(line)?;
        text.push('\n')?;
    }
    Ok(())
}

/// A text with these changes.
fn changed(alloc: Global, base: &str, changes: &str) -> Result<String, AllocError> {
    let mut text = String::new(alloc);
    let mut number = 0u64;
    for line in base.lines() {
        number = number.saturating_add(1);
        put_lines(&mut text, put_instead(changes, number).unwrap_or(line))?;
    }
    Ok(text)
}

/// Whether a text is rejected with its error after these changes, and nothing is printed.
fn is_rejected(alloc: Global, command: &str, base: &str, case: &str) -> Result<bool, AllocError> {
    let (changes, error) = case.split_once('|').unwrap_or(("", ""));
    let mut line = String::from_str(alloc, error)?;
    line.push('\n')?;
    let text = changed(alloc, base, changes)?;
    Ok(run_program(alloc, command, text.as_str(), "")?.is(2, "", line.as_str()))
}

#[test]
fn changed_lines_of_mps_are_rejected(rt: HostRuntime) -> Result<(), Fail> {
    for case in CHANGES_OF_MPS.lines() {
        assert!(rt;
            is_rejected(rt.alloc(), "canon mps mps -", MPS, case)?,
            "at {case}"
        );
    }
    Ok(())
}

#[test]
fn changed_lines_of_lp_are_rejected(rt: HostRuntime) -> Result<(), Fail> {
    for case in CHANGES_OF_LP.lines() {
        assert!(rt;
            is_rejected(rt.alloc(), "canon lp lp -", LP, case)?,
            "at {case}"
        );
    }
    Ok(())
}
