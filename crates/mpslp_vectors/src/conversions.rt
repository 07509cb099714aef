//! Conversions and comparisons of texts in memory.

use crate::texts::{SMALL, SMALL_LP, SMALL_MPS, TYPED_LP};
use mpslp_convert::{ConvertFault, canonical, is_canonical, same_model};
use mpslp_model::{FaultKind, Format, NameAt};
use mpslp_mps::read_mps;
use mpslp_write::{Lp, Mps};
use std::alloc::Global;

/// Whether the canonical text in B of a text in A is this one.
fn becomes<A: Format, B: Format>(alloc: Global, text: &str, wanted: &str) -> bool {
    match canonical::<A, B>(alloc, text.as_bytes()) {
        Ok(found) => found.as_slice() == wanted.as_bytes(),
        Err(_) => false,
    }
}

#[test]
fn texts_become_canonical(rt: HostRuntime) {
    let alloc = rt.alloc();
    let are_canonical = [
        becomes::<Mps, Mps>(alloc, SMALL, SMALL_MPS),
        becomes::<Mps, Lp>(alloc, SMALL, SMALL_LP),
        becomes::<Lp, Mps>(alloc, TYPED_LP, SMALL_MPS),
        becomes::<Lp, Mps>(alloc, SMALL_LP, SMALL_MPS),
        becomes::<Lp, Lp>(alloc, SMALL_LP, SMALL_LP),
    ];
    assert_eq!(rt; are_canonical, [true; 5]);
    assert_eq!(rt; [SMALL_MPS.len(), SMALL_LP.len()], [149, 92]);
}

/// Whether bytes are known to be canonical, or known not to be.
fn is_known<A: Format>(alloc: Global, text: &str, wanted: bool) -> bool {
    match is_canonical::<A>(alloc, text.as_bytes()) {
        Ok(found) => found == wanted,
        Err(_) => false,
    }
}

#[test]
fn canonical_texts_are_recognised(rt: HostRuntime) {
    let alloc = rt.alloc();
    let are_known = [
        is_known::<Mps>(alloc, SMALL, false),
        is_known::<Mps>(alloc, SMALL_MPS, true),
        is_known::<Lp>(alloc, TYPED_LP, false),
        is_known::<Lp>(alloc, SMALL_LP, true),
    ];
    assert_eq!(rt; are_known, [true; 4]);
}

#[test]
fn texts_are_compared(rt: HostRuntime) {
    let alloc = rt.alloc();
    let same = same_model::<Mps, Lp>(alloc, SMALL.as_bytes(), TYPED_LP.as_bytes());
    let other = same_model::<Mps, Lp>(alloc, SMALL.as_bytes(), b"min x st end");
    let first = same_model::<Mps, Lp>(alloc, b"", b"");
    let second = same_model::<Mps, Lp>(alloc, SMALL.as_bytes(), b"min x");
    assert!(rt; matches!(same, Ok(true)));
    assert!(rt; matches!(other, Ok(false)));
    assert!(rt;
        matches!(&first, Err(ConvertFault::First(fault)) if fault.kind == FaultKind::MissingEnd)
    );
    assert!(rt;
        matches!(&second, Err(ConvertFault::Second(fault)) if fault.kind == FaultKind::MissingEnd)
    );
}

#[test]
fn names_that_are_not_legal_in_lp_are_reported(rt: HostRuntime) {
    let alloc = rt.alloc();
    let text = b"ROWS\n N C\nCOLUMNS\n x-1 C 1\nENDATA\n";
    let answer = canonical::<Mps, Lp>(alloc, text);
    assert!(rt; matches!(&answer, Err(ConvertFault::NotLp(NameAt::Column(0)))));
}

/// Whether a format reads and writes the small text as its canonical one: by its own calls.
#[test]
fn formats_read(rt: HostRuntime) {
    let alloc = rt.alloc();
    let are_same = match (
        Mps::read(alloc, SMALL.as_bytes()),
        Lp::read(alloc, SMALL_LP.as_bytes()),
    ) {
        (Ok(first), Ok(second)) => match read_mps(alloc, SMALL_MPS.as_bytes()) {
            Ok(third) => first.same(&second) && second.same(&third),
            Err(_) => false,
        },
        _ => false,
    };
    assert!(rt; are_same);
}
