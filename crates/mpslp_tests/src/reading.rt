//! Tests of readers: whole texts, bytes after the end, and where an error is reported.

use crate::answers::{SMALL, SMALL_CANONICAL, SMALL_LP, text_of_read};
use mpslp_lp::{LpReader, read_lp};
use mpslp_model::{FaultKind, Model, ModelReader, ReadFault};
use mpslp_mps::{MpsReader, read_mps};
use std::alloc::Global;

/// Whether the canonical text of a model, or the line of the error, is this one.
fn has_text(alloc: Global, answer: Result<Model, ReadFault>, wanted: &str) -> bool {
    text_of_read(alloc, answer).as_slice() == wanted.as_bytes()
}

/// Whether an MPS text has this canonical text, or this line of its error.
fn mps_is(alloc: Global, text: &str, wanted: &str) -> bool {
    has_text(alloc, read_mps(alloc, text.as_bytes()), wanted)
}

/// Whether an LP text has this canonical text, or this line of its error.
fn lp_is(alloc: Global, text: &str, wanted: &str) -> bool {
    has_text(alloc, read_lp(alloc, text.as_bytes()), wanted)
}

/// An LP text of the same model in one line.
const ONE_LINE: &str = "min COST: X + 2Y st LIM1: X <= 4 MYG: 1.5 Y >= 1 end";

#[test]
fn mps_is_read(rt: HostRuntime) {
    let alloc = rt.alloc();
    let are_read = [
        mps_is(alloc, SMALL, SMALL_CANONICAL),
        mps_is(alloc, SMALL_CANONICAL, SMALL_CANONICAL),
        mps_is(alloc, "NAME\nROWS\n N  C\n X  R\n", "line 4: BadType\n"),
        mps_is(alloc, "", "file: MissingEnd\n"),
    ];
    assert_eq!(rt; are_read, [true; 4]);
}

#[test]
fn lp_is_read(rt: HostRuntime) {
    let alloc = rt.alloc();
    let are_read = [
        lp_is(alloc, SMALL_LP, SMALL_CANONICAL),
        lp_is(alloc, ONE_LINE, SMALL_CANONICAL),
        lp_is(
            alloc,
            "min x\nst\nx + x <= 1\nend\n",
            "line 3: DuplicateEntry\n",
        ),
        lp_is(alloc, "min x\nsemis\nx\nend\n", "file: SemiBounds x\n"),
    ];
    assert_eq!(rt; are_read, [true; 4]);
}

/// Feeds pieces until one is rejected.
fn feed_all<T: ModelReader>(reader: &mut T, pieces: &[&[u8]]) -> Result<(), ReadFault> {
    for piece in pieces {
        reader.feed(piece)?;
    }
    Ok(())
}

/// The result of a reader for these pieces together.
fn read_all<T: ModelReader>(alloc: Global, pieces: &[&[u8]]) -> Result<Model, ReadFault> {
    let mut reader = T::new(alloc);
    feed_all(&mut reader, pieces)?;
    reader.finish()
}

/// Bytes that are in no text of a model file.
const ANYTHING: &[u8] = b"\x80 [ x ^ 2 ] QUADOBJ \xff";

#[test]
fn what_follows_the_end_is_taken(rt: HostRuntime) {
    let alloc = rt.alloc();
    let pieces = [SMALL.as_bytes(), ANYTHING, ANYTHING];
    let found = text_of_read(alloc, read_all::<MpsReader>(alloc, &pieces));
    assert_eq!(rt; found.as_slice(), SMALL_CANONICAL.as_bytes());
    let pieces = [SMALL_LP.as_bytes(), ANYTHING, ANYTHING];
    let found = text_of_read(alloc, read_all::<LpReader>(alloc, &pieces));
    assert_eq!(rt; found.as_slice(), SMALL_CANONICAL.as_bytes());
}

/// The index of the first byte that a reader rejects if it is fed byte by byte, and the error.
fn first_refused<T: ModelReader>(reader: &mut T, text: &[u8]) -> Option<(usize, ReadFault)> {
    for (i, byte) in text.iter().enumerate() {
        if let Err(fault) = reader.feed(&[*byte]) {
            return Some((i, fault));
        }
    }
    None
}

/// The results of a reader that is fed a text byte by byte up to one that it rejects: the index of that byte with the error,
/// the result for a further piece, and the result at the end.
#[derive(Drop)]
struct Refused {
    first: Option<(usize, ReadFault)>,
    further: Result<(), ReadFault>,
    end: Result<Model, ReadFault>,
}

fn answers_of<T: ModelReader>(alloc: Global, text: &[u8]) -> Refused {
    let mut reader = T::new(alloc);
    let first = first_refused(&mut reader, text);
    let further = reader.feed(b"\n");
    Refused {
        first,
        further,
        end: reader.finish(),
    }
}

impl Refused {
    /// Whether this byte was rejected with this error of this line, and all later calls returned `Failed`.
    fn is(&self, at: usize, kind: FaultKind, line: u64) -> bool {
        let is_first = matches!(&self.first, Some((found, ReadFault::File(fault)))
            if *found == at && fault.line == line && fault.kind == kind);
        let has_failed = matches!(&self.further, Err(ReadFault::Failed))
            && matches!(&self.end, Err(ReadFault::Failed));
        is_first && has_failed
    }
}

#[test]
fn a_fault_is_reported_where_its_line_is_complete(rt: HostRuntime) {
    let front = "NAME\nROWS\n N  C\n L  R\nCOLUMNS\n    X  C  1\n    X  C  2";
    let text = "NAME\nROWS\n N  C\n L  R\nCOLUMNS\n    X  C  1\n    X  C  2\nENDATA\n";
    let answers = answers_of::<MpsReader>(rt.alloc(), text.as_bytes());
    assert!(rt; answers.is(front.len(), FaultKind::DuplicateEntry, 7));
    let front = "min x\nst\nx >= 1\nc2: x <= 5\nx <= 4\nc3: x <= 9";
    let text = "min x\nst\nx >= 1\nc2: x <= 5\nx <= 4\nc3: x <= 9\nend\n";
    let answers = answers_of::<LpReader>(rt.alloc(), text.as_bytes());
    assert!(rt; answers.is(front.len(), FaultKind::DuplicateRow, 6));
}
