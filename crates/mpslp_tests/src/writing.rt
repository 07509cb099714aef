//! Tests of writers: the canonical text of a worked file, a name that is not legal in LP, and a sink that fails.

use mpslp_model::{NameAt, Sink, ToWrite, WriteFault};
use mpslp_mps::read_mps;
use mpslp_test_devices::FailingWriter;
use mpslp_write::{first_unfit_name, write_lp, write_mps};
use std::alloc::{AllocError, Global};
use std::test::Fail;

/// A file whose lines are in another order and spelled differently from the canonical text.
const FILE: &str = "* sample
NAME  sample
OBJSENSE  MAX
ROWS
 N  COST
 L  LIM
 G  MYG
 E  EQ
 G  BETWEEN
 N  LAX
COLUMNS
    Y  COST  2  MYG  1.50
    M  'MARKER'  'INTORG'
    K  LIM  1
    B  COST  -1
    M  'MARKER'  'INTEND'
    S  COST  1
    X  LIM  3e0  EQ  2
    EMPTY  COST  0
RHS
    COST  5  LIM  4
    MYG  0  EQ  7
    BETWEEN  1
RANGES
    BETWEEN  2.5
BOUNDS
 SC  BND  S  4
 LO  BND  S  4
 PL  BND  K
 LO  BND  X  -1
 UP  BND  X  10
 FR  BND  Y
ENDATA
";

const TEXT: &str = "NAME
OBJSENSE
    MAX
ROWS
 N  COST
 G  BETWEEN
 E  EQ
 N  LAX
 L  LIM
 G  MYG
COLUMNS
    EMPTY  COST  0
    S  COST  1
    X  EQ  2
    X  LIM  3
    Y  COST  2
    Y  MYG  1.5
    MARKER  'MARKER'  'INTORG'
    B  COST  -1
    K  LIM  1
    MARKER  'MARKER'  'INTEND'
RHS
    RHS  COST  5
    RHS  BETWEEN  1
    RHS  EQ  7
    RHS  LIM  4
RANGES
    RNG  BETWEEN  2.5
BOUNDS
 UP  BND  B  1
 PL  BND  K
 LO  BND  S  4
 SC  BND  S  4
 LO  BND  X  -1
 UP  BND  X  10
 FR  BND  Y
ENDATA
";

const LP_TEXT: &str = "Maximize
 COST:
  - 1 B
  + 0 EMPTY
  + 1 S
  + 2 Y
  - 5
Subject To
 BETWEEN:
  1 <=
  + 0 B
  <= 3.5
 EQ:
  + 2 X
  = 7
 LAX:
  + 0 B
  >= -1e20
 LIM:
  + 1 K
  + 3 X
  <= 4
 MYG:
  + 1.5 Y
  >= 0
Bounds
 0 <= B <= 1
 S = 4
 -1 <= X <= 10
 Y free
Generals
 B
 K
Semi-Continuous
 S
End
";

/// A file with a row and columns whose names are not legal in LP.
const BRACKETS: &str = "ROWS
 N  C
 L  D
 L  E1
COLUMNS
    X  C  1
    Y[1]  C  1
ENDATA
";

/// A file with columns whose names are not legal in LP: the second is a reserved word.
const FREE: &str = "ROWS
 N  C
COLUMNS
    X  C  1
    free  C  1
    x-1  C  1
ENDATA
";

/// The result of writing the model of a file, or `None` if the file has no model.
fn write_file<W: Sink>(alloc: Global, file: &str, sink: &mut W) -> Option<Result<(), WriteFault>> {
    match read_mps(alloc, file.as_bytes()) {
        Ok(model) => Some(write_mps(&model, sink)),
        Err(_) => None,
    }
}

/// The result of writing the model of a file as LP, or `None` if the file has no model.
fn write_lp_file<W: Sink>(
    alloc: Global,
    file: &str,
    sink: &mut W,
) -> Option<Result<(), WriteFault>> {
    match read_mps(alloc, file.as_bytes()) {
        Ok(model) => Some(write_lp(&model, sink)),
        Err(_) => None,
    }
}

/// Whether the canonical text of a file's model is this one, and in how many calls it is written.
fn written(alloc: Global, file: &str, wanted: &str) -> (bool, u64) {
    let mut sink = ToWrite::new(Vec::new(alloc));
    let answer = write_file(alloc, file, &mut sink);
    let calls = sink.calls();
    let has_text = sink.into_inner().as_slice() == wanted.as_bytes();
    (answer == Some(Ok(())) && has_text, calls)
}

#[test]
fn canonical_texts_are_written_in_one_call(rt: HostRuntime) {
    assert_eq!(rt; written(rt.alloc(), FILE, TEXT), (true, 1));
}

/// Whether the canonical LP text of a file's model is this one, and in how many calls it is written.
fn lp_written(alloc: Global, file: &str, wanted: &str) -> (bool, u64) {
    let mut sink = ToWrite::new(Vec::new(alloc));
    let answer = write_lp_file(alloc, file, &mut sink);
    let calls = sink.calls();
    let has_text = sink.into_inner().as_slice() == wanted.as_bytes();
    (answer == Some(Ok(())) && has_text, calls)
}

#[test]
fn canonical_lp_texts_are_written_in_one_call(rt: HostRuntime) {
    assert_eq!(rt; lp_written(rt.alloc(), FILE, LP_TEXT), (true, 1));
}

/// The place of the first name of a file's model that is not legal in LP.
fn unfit_name_of(alloc: Global, file: &str) -> Option<NameAt> {
    match read_mps(alloc, file.as_bytes()) {
        Ok(model) => first_unfit_name(&model),
        Err(_) => None,
    }
}

/// The result of writing a file's model as LP into a sink with room for nine bytes, and the number of calls.
fn lp_calls(
    alloc: Global,
    file: &str,
) -> Result<(Option<Result<(), WriteFault>>, u64), AllocError> {
    let mut sink = FailingWriter::new(alloc, 9)?;
    let answer = write_lp_file(alloc, file, &mut sink);
    Ok((answer, sink.calls()))
}

#[test]
fn a_name_that_is_not_legal_in_lp_is_reported_before_any_byte(rt: HostRuntime) -> Result<(), Fail> {
    for (file, place) in [(BRACKETS, NameAt::Row(1)), (FREE, NameAt::Column(1))] {
        let (answer, calls) = lp_calls(rt.alloc(), file)?;
        let unfit = unfit_name_of(rt.alloc(), file);
        assert_eq!(rt; answer, Some(Err(WriteFault::NotLp(place))));
        assert_eq!(rt; (calls, unfit), (0, Some(place)));
    }
    Ok(())
}

/// Whether a write into a sink with room for nine bytes stopped there, and the sink has the first nine bytes of this text.
fn has_stopped(answer: Option<Result<(), WriteFault>>, sink: &FailingWriter, text: &str) -> bool {
    let bytes = sink.bytes();
    let is_front = bytes.len() == 9 && text.as_bytes().starts_with(bytes);
    answer == Some(Err(WriteFault::Write { written: 9 })) && is_front
}

/// Whether writing a file's model into a sink with room for nine bytes stops there, with the first nine bytes of this text.
fn stops(alloc: Global, file: &str, text: &str) -> Result<bool, AllocError> {
    let mut sink = FailingWriter::new(alloc, 9)?;
    let answer = write_file(alloc, file, &mut sink);
    Ok(has_stopped(answer, &sink, text))
}

/// Whether writing a file's model as LP into a sink with room for nine bytes stops there, with the first nine bytes of this
/// text.
fn lp_stops(alloc: Global, file: &str, text: &str) -> Result<bool, AllocError> {
    let mut sink = FailingWriter::new(alloc, 9)?;
    let answer = write_lp_file(alloc, file, &mut sink);
    Ok(has_stopped(answer, &sink, text))
}

#[test]
fn a_sink_that_fails_is_reported(rt: HostRuntime) -> Result<(), Fail> {
    let stops = stops(rt.alloc(), FILE, TEXT)?;
    let lp_stops = lp_stops(rt.alloc(), FILE, LP_TEXT)?;
    assert_eq!(rt; [stops, lp_stops], [true; 2]);
    Ok(())
}
