//! Tests of conversions and of the text that shows a model: worked texts, devices and how often they are called, and the laws.

ghost use Rattle.std.specs.Prelude.{◌≡◌, IfOk};
ghost use Rattle.mpslp_model_core.specs.Model.{LinearModel};

use crate::answers::{MUCH, SMALL, SMALL_CANONICAL, SMALL_CANONICAL_LP, SMALL_LP, text_of_run};
use mpslp_convert::{
    ConvertFault, RunFault, canonical, is_canonical, laws, load, run, same_model, show,
};
use mpslp_model::{FaultKind, Format, FromRead, NameAt, Sink, Source, ToWrite};
use mpslp_test_devices::{FailingReader, FailingWriter};
use mpslp_write::{Lp, Mps};
use std::alloc::{AllocError, Global};
use std::io;
use std::io::Read;
use std::test::Fail;

/// A run into a `Vec`. Its contract shows that callers of `run` know the content of the `Vec` from contracts.
fn run_in_memory<A: Format, B: Format>(
    alloc: Global,
    max_bytes: u64,
    bytes: &[u8],
) -> Result<Vec<u8>, RunFault>
    ensures { (m : LinearModel) → A.declares bytes.now m → IfOk result (λ out. out.items ≡ B.text m) }
{
    let mut source = FromRead::new(bytes);
    let mut sink = ToWrite::new(Vec::new(alloc));
    run::<A, B, _, _>(alloc, max_bytes, &mut source, &mut sink)?;
    Ok(sink.into_inner())
}

/// Whether a text is converted to the expected one, in memory and by a run.
fn becomes<A: Format, B: Format>(alloc: Global, text: &str, wanted: &str) -> bool {
    let converted = canonical::<A, B>(alloc, text.as_bytes());
    let ran = run_in_memory::<A, B>(alloc, MUCH, text.as_bytes());
    let is_converted = matches!(&converted, Ok(found) if found.as_slice() == wanted.as_bytes());
    let is_run = matches!(&ran, Ok(found) if found.as_slice() == wanted.as_bytes());
    is_converted && is_run
}

#[test]
fn texts_are_converted(rt: HostRuntime) {
    let alloc = rt.alloc();
    let lengths = [SMALL_CANONICAL.len(), SMALL_CANONICAL_LP.len()];
    let are_converted = [
        becomes::<Mps, Mps>(alloc, SMALL, SMALL_CANONICAL),
        becomes::<Mps, Lp>(alloc, SMALL, SMALL_CANONICAL_LP),
        becomes::<Lp, Mps>(alloc, SMALL_LP, SMALL_CANONICAL),
        becomes::<Lp, Lp>(alloc, SMALL_LP, SMALL_CANONICAL_LP),
    ];
    assert_eq!(rt; lengths, [149, 92]);
    assert_eq!(rt; are_converted, [true; 4]);
}

/// A text with a column whose name is not legal in LP.
const UNFIT: &str = "ROWS\n N C\nCOLUMNS\n x-1 C 1\nENDATA\n";

/// Whether no text is converted because a name at this place is not legal in LP.
fn is_illegal_name(fault: &ConvertFault, place: NameAt) -> bool {
    matches!(fault, ConvertFault::NotLp(found) if *found == place)
}

/// Whether no text is converted because of this error in this line of it.
fn is_fault(fault: &ConvertFault, line: u64, kind: FaultKind) -> bool {
    matches!(fault, ConvertFault::First(found) if found.line == line && found.kind == kind)
}

/// Whether an MPS text is not converted to LP because a name at this place is not legal in LP.
fn is_stopped(alloc: Global, text: &str, place: NameAt) -> bool {
    match canonical::<Mps, Lp>(alloc, text.as_bytes()) {
        Ok(_) => false,
        Err(fault) => is_illegal_name(&fault, place),
    }
}

/// Whether an LP text is not converted because of this error in this line of it.
fn is_refused(alloc: Global, text: &str, line: u64, kind: FaultKind) -> bool {
    match canonical::<Lp, Mps>(alloc, text.as_bytes()) {
        Ok(_) => false,
        Err(fault) => is_fault(&fault, line, kind),
    }
}

#[test]
fn what_is_not_converted_is_reported(rt: HostRuntime) {
    let alloc = rt.alloc();
    let are_reported = [
        is_stopped(alloc, UNFIT, NameAt::Column(0)),
        is_refused(alloc, SMALL, 1, FaultKind::BadToken),
    ];
    assert_eq!(rt; are_reported, [true; 2]);
}

/// Whether a text is canonical, or `None` for an error.
fn is_known<A: Format>(alloc: Global, text: &[u8]) -> Option<bool> {
    match is_canonical::<A>(alloc, text) {
        Ok(is_canonical) => Some(is_canonical),
        Err(_) => None,
    }
}

/// Whether it is not known if an MPS text is canonical, because of this error in this line of it.
fn is_unknown(alloc: Global, text: &[u8], line: u64, kind: FaultKind) -> bool {
    match is_canonical::<Mps>(alloc, text) {
        Ok(_) => false,
        Err(fault) => is_fault(&fault, line, kind),
    }
}

#[test]
fn canonical_texts_are_known(rt: HostRuntime) {
    let alloc = rt.alloc();
    let text = SMALL_CANONICAL.as_bytes();
    let are_known = [
        is_known::<Mps>(alloc, SMALL.as_bytes()),
        is_known::<Mps>(alloc, text),
        is_known::<Mps>(alloc, &text[..148]),
        is_known::<Lp>(alloc, SMALL_LP.as_bytes()),
        is_known::<Lp>(alloc, SMALL_CANONICAL_LP.as_bytes()),
    ];
    let is_refused = is_unknown(alloc, b"NAME\n", 0, FaultKind::MissingEnd);
    let wanted = [
        Some(false),
        Some(true),
        Some(false),
        Some(false),
        Some(true),
    ];
    assert_eq!(rt; are_known, wanted);
    assert_eq!(rt; is_refused, true);
}

/// Whether two texts declare the same model, or `None` for an error.
fn are_same<A: Format, B: Format>(alloc: Global, first: &[u8], second: &[u8]) -> Option<bool> {
    match same_model::<A, B>(alloc, first, second) {
        Ok(are_same) => Some(are_same),
        Err(_) => None,
    }
}

/// The line of an error in the first or in the second of two texts.
fn fault_lines(fault: &ConvertFault) -> (Option<u64>, Option<u64>) {
    match fault {
        ConvertFault::First(fault) => (Some(fault.line), None),
        ConvertFault::Second(fault) => (None, Some(fault.line)),
        _ => (None, None),
    }
}

/// The line of the error in the first or in the second of two MPS texts, because of which they are not compared.
fn lines_refused(alloc: Global, first: &[u8], second: &[u8]) -> (Option<u64>, Option<u64>) {
    match same_model::<Mps, Mps>(alloc, first, second) {
        Ok(_) => (None, None),
        Err(fault) => fault_lines(&fault),
    }
}

#[test]
fn models_are_compared(rt: HostRuntime) {
    let alloc = rt.alloc();
    let (mps, lp) = (SMALL.as_bytes(), SMALL_LP.as_bytes());
    let are_same = [
        are_same::<Mps, Lp>(alloc, mps, lp),
        are_same::<Lp, Mps>(alloc, lp, mps),
        are_same::<Mps, Mps>(alloc, mps, UNFIT.as_bytes()),
    ];
    let in_first = lines_refused(alloc, b"", b"X\n");
    let in_second = lines_refused(alloc, mps, b"X\n");
    assert_eq!(rt; are_same, [Some(true), Some(true), Some(false)]);
    assert_eq!(rt; [in_first, in_second], [(Some(0), None), (None, Some(1))]);
}

const SHOWN: &str = "sense minimize
objective COST constant 0 offset 0
rows 2 columns 2 elements 2
row 0 LIM1 L -inf 4 rhs 4 range 0
row 1 MYG G 1 inf rhs 1 range 0
column 0 X continuous 0 inf objective 1
entry 0 0 1
column 1 Y continuous 0 inf objective 2
entry 1 1 1.5
";

/// Whether the model of an LP text is shown as this text, and the number of calls of the sink.
fn shown(alloc: Global, text: &str, wanted: &str) -> (bool, u64) {
    let mut source = FromRead::new(text.as_bytes());
    let mut sink = ToWrite::new(Vec::new(alloc));
    let answer = show::<Lp, _, _>(alloc, MUCH, &mut source, &mut sink);
    let calls = sink.calls();
    let found = text_of_run(answer, sink.into_inner());
    (found.as_slice() == wanted.as_bytes(), calls)
}

#[test]
fn a_model_is_shown(rt: HostRuntime) {
    assert_eq!(rt; shown(rt.alloc(), SMALL_LP, SHOWN), (true, 2));
}

/// Whether an input with these bytes is loaded within this limit, and gives the same bytes.
fn is_loaded(alloc: Global, max_bytes: u64, bytes: &[u8]) -> bool {
    let loaded = load(alloc, max_bytes, &mut FromRead::new(bytes));
    matches!(&loaded, Ok(found) if found.as_slice() == bytes)
}

/// Whether an input with these bytes is too long to be loaded within this limit.
fn is_too_long(alloc: Global, max_bytes: u64, bytes: &[u8]) -> bool {
    let loaded = load(alloc, max_bytes, &mut FromRead::new(bytes));
    matches!(&loaded, Err(RunFault::TooLong))
}

/// Whether an MPS text is too long for a run within this limit.
fn is_too_long_to_run(alloc: Global, max_bytes: u64, bytes: &[u8]) -> bool {
    let ran = run_in_memory::<Mps, Mps>(alloc, max_bytes, bytes);
    matches!(&ran, Err(RunFault::TooLong))
}

#[test]
fn an_input_has_at_most_so_many_bytes(rt: HostRuntime) {
    let alloc = rt.alloc();
    let text = SMALL.as_bytes();
    let are_limits = [
        is_too_long(alloc, 146, text),
        is_loaded(alloc, 147, text),
        is_too_long_to_run(alloc, 146, text),
    ];
    assert_eq!(rt; text.len(), 147);
    assert_eq!(rt; are_limits, [true; 3]);
}

/// Returns a whole text, then 0 bytes, and then the text again.
#[derive(Drop)]
struct PausingReader<'a> {
    text: &'a [u8],
    reads: u64,
}

impl Read for PausingReader<'_> {
    fn read(&mut self, buffer: &mut [u8]) -> io::Result<usize> {
        self.reads = self.reads.saturating_add(1);
        if self.reads == 2 {
            return Ok(0);
        }
        let given = self.text.len().min(buffer.len());
        buffer[..given].copy_from_slice(&self.text[..given]);
        Ok(given)
    }
}

/// Whether a text is loaded from a reader that pauses after it, the number of calls of the source, and the number of reads.
fn loaded_up_to_pause(alloc: Global, text: &[u8]) -> (bool, [u64; 2]) {
    let mut source = FromRead::new(PausingReader { text, reads: 0 });
    let loaded = load(alloc, MUCH, &mut source);
    let is_loaded = matches!(&loaded, Ok(found) if found.as_slice() == text);
    let calls = source.calls();
    (is_loaded, [calls, source.into_inner().reads])
}

#[test]
fn a_read_of_0_bytes_is_the_end(rt: HostRuntime) {
    let loaded = loaded_up_to_pause(rt.alloc(), SMALL.as_bytes());
    assert_eq!(rt; loaded, (true, [2, 2]));
}

/// Whether an MPS text is converted to the expected one by a run into a sink with this room, and the numbers of calls of the
/// source and of the sink.
fn run_with_calls(
    alloc: Global,
    text: &str,
    room: usize,
    wanted: &str,
) -> Result<(bool, [u64; 2]), AllocError> {
    let mut source = FromRead::new(text.as_bytes());
    let mut sink = FailingWriter::new(alloc, room)?;
    let answer = run::<Mps, Mps, _, _>(alloc, text.len() as u64, &mut source, &mut sink);
    let is_run = matches!(&answer, Ok(())) && sink.bytes() == wanted.as_bytes();
    Ok((is_run, [source.calls(), sink.calls()]))
}

#[test]
fn a_run_writes_once_and_flushes_once(rt: HostRuntime) -> Result<(), Fail> {
    let ran = run_with_calls(rt.alloc(), SMALL, 150, SMALL_CANONICAL)?;
    assert_eq!(rt; ran, (true, [2, 2]));
    Ok(())
}

/// A text with an error on line 3, and lines after it.
const FAULTY: &str = "NAME\nROWS\n X  C\n L  R\nCOLUMNS\n    X  C  1\nENDATA\n";

/// Whether a run has this result, if its input comes byte by byte and fails in the given read, or never if that is 0.
fn failing_is(alloc: Global, max_bytes: u64, text: &str, fail_at: u64, wanted: &str) -> bool {
    let mut source = FailingReader::new(text.as_bytes(), 1, fail_at);
    let mut sink = ToWrite::new(Vec::new(alloc));
    let answer = run::<Mps, Mps, _, _>(alloc, max_bytes, &mut source, &mut sink);
    text_of_run(answer, sink.into_inner()).as_slice() == wanted.as_bytes()
}

#[test]
fn a_source_that_fails_is_reported_before_a_fault_of_the_file(rt: HostRuntime) {
    let alloc = rt.alloc();
    let len = FAULTY.len() as u64;
    let are_reported = [
        failing_is(alloc, MUCH, FAULTY, 0, "line 3: BadType\n"),
        failing_is(alloc, MUCH, FAULTY, len + 1, "read failed\n"),
        failing_is(alloc, len - 1, FAULTY, len + 1, "file: TooLong\n"),
    ];
    assert_eq!(rt; are_reported, [true; 3]);
}

#[test]
fn the_laws_hold_of_both_formats(_rt: HostRuntime) {
    laws::texts_are_injective::<Mps>();
    laws::texts_are_injective::<Lp>();
    laws::headline::<Mps, Mps, Mps>();
    laws::headline::<Mps, Lp, Mps>();
    laws::headline::<Lp, Mps, Mps>();
    laws::headline::<Lp, Lp, Mps>();
    laws::headline::<Mps, Mps, Lp>();
    laws::headline::<Mps, Lp, Lp>();
    laws::headline::<Lp, Mps, Lp>();
    laws::headline::<Lp, Lp, Lp>();
}
