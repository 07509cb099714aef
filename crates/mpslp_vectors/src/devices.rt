//! Sources and sinks: runs between them, and what is reported and written where one of them fails.

use crate::texts::{MUCH, SMALL, SMALL_LP, SMALL_MPS};
use crate::{FailingReader, FailingWriter};
use mpslp_convert::{RunFault, load, report, run, show};
use mpslp_model::{Format, FromRead, Model, NameAt, Sink, Source, ToWrite, WriteFault};
use mpslp_mps::read_mps;
use mpslp_write::{Lp, Mps, write_lp, write_mps};
use std::alloc::{AllocError, Global};
use std::test::Fail;

/// What the run of a text in B from A into a `Vec` writes, followed by the line of its error.
fn run_text<A: Format, B: Format>(alloc: Global, text: &str, max_bytes: u64) -> Vec<u8> {
    let mut source = FromRead::new(text.as_bytes());
    let mut sink = ToWrite::new(Vec::new(alloc));
    let answer = run::<A, B, _, _>(alloc, max_bytes, &mut source, &mut sink);
    with_line(answer, sink.into_inner())
}

/// What a run wrote, followed by the line of its error.
fn with_line(answer: Result<(), RunFault>, written: Vec<u8>) -> Vec<u8> {
    let mut sink = ToWrite::new(written);
    if let Err(fault) = answer {
        let _ = report(&fault, &mut sink);
    }
    sink.into_inner()
}

#[test]
fn a_source_is_converted_to_a_sink(rt: HostRuntime) {
    let alloc = rt.alloc();
    let length = SMALL.len() as u64;
    assert_eq!(rt; length, 147);
    let are_written = [
        run_text::<Mps, Mps>(alloc, SMALL, length).as_slice() == SMALL_MPS.as_bytes(),
        run_text::<Mps, Lp>(alloc, SMALL, MUCH).as_slice() == SMALL_LP.as_bytes(),
        run_text::<Mps, Mps>(alloc, SMALL, 146).as_slice() == b"file: TooLong\n".as_slice(),
        run_text::<Mps, Lp>(alloc, "ROWS\n N C\nCOLUMNS\n x-1 C 1\nENDATA\n", MUCH).as_slice()
            == b"column 0: NotLp\n".as_slice(),
    ];
    assert_eq!(rt; are_written, [true; 4]);
}

/// The result of a run whose reader gives one byte a read and fails in a read, and whose writer takes so many bytes.
fn failing_run(
    alloc: Global,
    fail_at: u64,
    take: usize,
) -> Result<(Result<(), RunFault>, Vec<u8>), AllocError> {
    let mut source = FailingReader::new(SMALL.as_bytes(), 1, fail_at);
    let mut sink = FailingWriter::new(alloc, take)?;
    let answer = run::<Mps, Mps, _, _>(alloc, 147, &mut source, &mut sink);
    let mut written = Vec::new(alloc);
    written.extend_from_slice(sink.bytes())?;
    Ok((answer, written))
}

/// Whether a run with a reader that fails in this read writes nothing.
fn is_not_read(alloc: Global, fail_at: u64) -> Result<bool, AllocError> {
    let (answer, written) = failing_run(alloc, fail_at, 149)?;
    Ok(matches!(answer, Err(RunFault::Read)) && written.is_empty())
}

/// Whether a run with a writer that fails after so many bytes has written these.
fn is_cut(alloc: Global, take: usize) -> Result<bool, AllocError> {
    let (answer, written) = failing_run(alloc, 0, take)?;
    let is_reported = match answer {
        Err(RunFault::Write { written }) => written == take as u64,
        _ => false,
    };
    Ok(
        is_reported
            && take <= SMALL_MPS.len()
            && written.as_slice() == &SMALL_MPS.as_bytes()[..take],
    )
}

#[test]
fn failures_are_reported(rt: HostRuntime) -> Result<(), Fail> {
    let alloc = rt.alloc();
    for fail_at in [1, 2, 74, 147, 148] {
        assert!(rt; is_not_read(alloc, fail_at)?, "at {fail_at}");
    }
    for take in [0, 1, 10, 148, 149] {
        assert!(rt; is_cut(alloc, take)?, "at {take}");
    }
    Ok(())
}

#[test]
fn a_source_is_loaded(rt: HostRuntime) {
    let alloc = rt.alloc();
    let is_loaded = match load(alloc, 147, &mut FromRead::new(SMALL.as_bytes())) {
        Ok(bytes) => bytes.as_slice() == SMALL.as_bytes(),
        Err(_) => false,
    };
    let too_long = load(alloc, 146, &mut FromRead::new(SMALL.as_bytes()));
    let mut failing = FailingReader::new(SMALL.as_bytes(), 7, 2);
    let failed = load(alloc, MUCH, &mut failing);
    assert!(rt; is_loaded);
    assert!(rt; matches!(too_long, Err(RunFault::TooLong)));
    assert!(rt; matches!(failed, Err(RunFault::Read)));
    assert!(rt; failing.has_failed());
    assert_eq!(rt; failing.calls(), 2);
}

const SHOWN: &str = "sense minimize
objective COST constant 0 offset 0
rows 2 columns 2 elements 2
row 0 LIM1 L -inf 4 rhs 4 range 0
row 1 MYG G 1 inf rhs 1 range 0
column 0 X continuous 0 inf objective 1
entry 0 0 1
column 1 Y continuous 0 inf objective 2
entry 1 1 1.5
";

#[test]
fn a_model_is_shown(rt: HostRuntime) {
    let alloc = rt.alloc();
    let mut sink = ToWrite::new(Vec::new(alloc));
    let answer = show::<Mps, _, _>(alloc, MUCH, &mut FromRead::new(SMALL.as_bytes()), &mut sink);
    assert!(rt; answer.is_ok());
    assert_eq!(rt; sink.into_inner().as_slice(), SHOWN.as_bytes());
}

/// The results of both writers for a model, to sinks that take so many bytes.
fn write_results(
    alloc: Global,
    model: &Model,
    take: usize,
) -> Result<[Result<(), WriteFault>; 2], AllocError> {
    let mut mps = FailingWriter::new(alloc, take)?;
    let mut lp = FailingWriter::new(alloc, take)?;
    let answers = [write_mps(model, &mut mps), write_lp(model, &mut lp)];
    Ok(answers)
}

#[test]
fn writers_report_what_was_taken(rt: HostRuntime) -> Result<(), Fail> {
    let alloc = rt.alloc();
    let Ok(model) = read_mps(alloc, SMALL.as_bytes()) else {
        return Ok(assert!(rt; false));
    };
    let expressible = [Mps::expressible(&model), Lp::expressible(&model)];
    assert_eq!(rt; expressible, [true; 2]);
    assert_eq!(rt; write_results(alloc, &model, 149)?, [Ok(()); 2]);
    assert_eq!(rt;
        write_results(alloc, &model, 10)?,
        [Err(WriteFault::Write { written: 10 }); 2]
    );
    let Ok(unfit) = read_mps(alloc, b"ROWS\n N C\nCOLUMNS\n free C 1\nENDATA\n") else {
        return Ok(assert!(rt; false));
    };
    let place = NameAt::Column(0);
    assert_eq!(rt;
        write_results(alloc, &unfit, 149)?,
        [Ok(()), Err(WriteFault::NotLp(place))]
    );
    assert!(rt; !Lp::expressible(&unfit));
    Ok(())
}

#[test]
fn devices_count_their_calls(rt: HostRuntime) {
    let mut source = FromRead::new(b"ab".as_slice());
    let mut buffer = [0u8; 4];
    let answer = source.read(&mut buffer);
    assert_eq!(rt; answer, Ok(2));
    assert_eq!(rt; source.read(&mut buffer), Ok(0));
    assert_eq!(rt; source.calls(), 2);
    assert!(rt; !source.has_failed());
    let mut sink = ToWrite::new(Vec::new(rt.alloc()));
    assert_eq!(rt; sink.write(b"ab"), Ok(2));
    assert_eq!(rt; sink.flush(), Ok(()));
    assert_eq!(rt; sink.calls(), 2);
    assert!(rt; !sink.has_failed());
}
