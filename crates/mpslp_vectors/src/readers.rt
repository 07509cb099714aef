//! Readers of whole texts, and of text in pieces.

use crate::texts::{SMALL, TYPED_LP};
use mpslp_lp::{LpReader, read_lp};
use mpslp_model::{Fault, FaultKind, Model, ModelReader, ReadFault};
use mpslp_mps::{MpsReader, read_mps};
use std::alloc::Global;

/// Whether an error is this one, of a line.
fn is_fault(fault: &Fault, kind: FaultKind, line: u64) -> bool {
    fault.kind == kind && fault.line == line && fault.name.is_none()
}

/// Whether a text was rejected with this error.
fn is_rejected(answer: &Result<Model, ReadFault>, kind: FaultKind, line: u64) -> bool {
    match answer {
        Err(ReadFault::File(fault)) => is_fault(fault, kind, line),
        _ => false,
    }
}

#[test]
fn both_formats_declare_the_model(rt: HostRuntime) {
    let alloc = rt.alloc();
    let are_same = match (
        read_mps(alloc, SMALL.as_bytes()),
        read_lp(alloc, TYPED_LP.as_bytes()),
    ) {
        (Ok(first), Ok(second)) => first.same(&second),
        _ => false,
    };
    assert!(rt; are_same);
    assert!(rt; is_rejected(&read_mps(alloc, b""), FaultKind::MissingEnd, 0));
    assert!(rt;
        is_rejected(
            &read_lp(alloc, b"min e9 st end"),
            FaultKind::NameLikeExponent,
            1
        )
    );
}

/// A second coefficient of a column in a row, in line 7.
const TWICE_MPS: &str = "NAME
ROWS
 N  C
 L  R
COLUMNS
    X  C  1
    X  C  2
    Y  C  1
ENDATA
";

/// A second row of the name c3, in line 6.
const TWICE_LP: &str = "min x\nst\nx >= 1\nc2: x <= 5\nx <= 4\nc3: x <= 9\nend\n";

/// Feeds a text byte by byte. Returns the line in which a byte was rejected, and the error.
fn feed_bytes<P: ModelReader>(reader: &mut P, text: &str) -> Option<(u64, ReadFault)> {
    let mut line = 1u64;
    for byte in text.as_bytes() {
        if let Err(fault) = reader.feed(&[*byte]) {
            return Some((line, fault));
        }
        if *byte == b'\n' {
            line = line.saturating_add(1);
        }
    }
    None
}

/// Whether a reader that is fed a text byte by byte returns this model.
fn is_fed<P: ModelReader>(alloc: Global, text: &str, wanted: &Model) -> bool {
    let mut reader = P::new(alloc);
    if feed_bytes(&mut reader, text).is_some() {
        return false;
    }
    match reader.finish() {
        Ok(model) => model.same(wanted),
        Err(_) => false,
    }
}

#[test]
fn pieces_declare_the_model(rt: HostRuntime) {
    let alloc = rt.alloc();
    let are_fed = match read_mps(alloc, SMALL.as_bytes()) {
        Ok(model) => is_fed::<MpsReader>(alloc, SMALL, &model)
            && is_fed::<LpReader>(alloc, TYPED_LP, &model),
        Err(_) => false,
    };
    assert!(rt; are_fed);
}

/// Whether a reader rejects a text, fed byte by byte, with this error at the end of its line, and fails from then on.
fn is_stopped<P: ModelReader>(alloc: Global, text: &str, kind: FaultKind, wanted: u64) -> bool {
    let mut reader = P::new(alloc);
    let is_first = match feed_bytes(&mut reader, text) {
        Some((line, ReadFault::File(fault))) => line == wanted && is_fault(&fault, kind, wanted),
        _ => false,
    };
    let has_failed = matches!(reader.feed(b"\n"), Err(ReadFault::Failed));
    is_first && has_failed && matches!(reader.finish(), Err(ReadFault::Failed))
}

#[test]
fn an_error_is_reported_where_its_line_ends(rt: HostRuntime) {
    let alloc = rt.alloc();
    assert!(rt; is_stopped::<MpsReader>(alloc, TWICE_MPS, FaultKind::DuplicateEntry, 7));
    assert!(rt; is_stopped::<LpReader>(alloc, TWICE_LP, FaultKind::DuplicateRow, 6));
}

#[test]
fn kinds_have_texts(rt: HostRuntime) {
    assert_eq!(rt; FaultKind::DuplicateEntry.text(), "DuplicateEntry");
    assert_eq!(rt; FaultKind::MissingEnd.text(), "MissingEnd");
}
