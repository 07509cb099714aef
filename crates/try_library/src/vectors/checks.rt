//! What is checked of an input.

use crate::vectors::answers::{
    MUCH, canonical_in, fed_in, is_canonical_in, line_of, read_in, run_of, same_in, shown_of,
};
use crate::vectors::tables::{Entry, Expected};
use mpslp_convert::{ConvertFault, Form};
use std::alloc::Global;

/// Each format of model files.
const FORMATS: [Form; 2] = [Form::Mps, Form::Lp];

/// Whether a text is read and converted as expected: as a whole, in memory, and in pieces of 1 and of 7 bytes.
pub(crate) fn is_converted(alloc: Global, format: Form, text: &[u8], expected: &Expected) -> bool {
    if !read_in(alloc, format, text).is(&expected.mps) {
        return false;
    }
    for to in FORMATS {
        let wanted = expected.answer_in(to);
        if !canonical_in(alloc, format, to, text).is(wanted) {
            return false;
        }
        for piece in [usize::MAX, 1, 7] {
            if !run_of(alloc, MUCH, format, to, text, piece).is(wanted) {
                return false;
            }
        }
    }
    true
}

/// Whether a text is converted as expected if its bytes come as a whole, and in pieces of 4,096 bytes.
pub(crate) fn is_converted_in_large_pieces(
    alloc: Global,
    format: Form,
    text: &[u8],
    expected: &Expected,
) -> bool {
    for to in FORMATS {
        let wanted = expected.answer_in(to);
        for piece in [usize::MAX, 4_096] {
            if !run_of(alloc, MUCH, format, to, text, piece).is(wanted) {
                return false;
            }
        }
    }
    true
}

/// Whether the text that shows a model, or the error, is as expected.
pub(crate) fn is_shown(alloc: Global, format: Form, text: &[u8], expected: &Expected) -> bool {
    let Some(wanted) = &expected.shown else {
        return true;
    };
    for piece in [usize::MAX, 1, 7] {
        if !shown_of(alloc, format, text, piece).is(wanted) {
            return false;
        }
    }
    true
}

/// Whether a reader that is fed in two pieces has the expected result, wherever the text is cut.
pub(crate) fn is_read_in_two_pieces(
    alloc: Global,
    format: Form,
    text: &[u8],
    expected: &Expected,
) -> bool {
    for len in 0..text.len() {
        if !fed_in(alloc, format, &text[..len], &text[len..]).is(&expected.mps) {
            return false;
        }
    }
    true
}

/// Whether a limit of exactly the input's length accepts it, and one byte less rejects it.
pub(crate) fn is_too_long_by_one(alloc: Global, entry: &Entry) -> bool {
    let text = entry.text.as_slice();
    let len = text.len() as u64;
    if !run_of(alloc, len, entry.format, Form::Mps, text, 7).is(&entry.expected.mps) {
        return false;
    }
    if len == 0 {
        return true;
    }
    let answer = run_of(alloc, len - 1, entry.format, Form::Mps, text, 7);
    answer.is_fault && answer.text.as_slice() == b"file: TooLong\n".as_slice()
}

/// Whether the canonical texts of an entry's model are their own, and are unchanged by a conversion to the other format and back.
pub(crate) fn keeps_its_texts(alloc: Global, entry: &Entry) -> bool {
    for format in FORMATS {
        let answer = entry.answer_in(format);
        if !answer.is_fault {
            let text = answer.text.as_slice();
            if !is_converted(alloc, format, text, &entry.expected) {
                return false;
            }
            if !matches!(is_canonical_in(alloc, format, text), Ok(true)) {
                return false;
            }
        }
    }
    true
}

/// Whether `is_canonical` says if an input is its own canonical text, or returns its error.
pub(crate) fn is_judged(alloc: Global, entry: &Entry) -> bool {
    let wanted = entry.answer_in(entry.format);
    match is_canonical_in(alloc, entry.format, &entry.text) {
        Ok(is_own) => is_own == (wanted.text.as_slice() == entry.text.as_slice()),
        Err(fault) => !entry.is_model() && line_of(alloc, fault).is(wanted),
    }
}

/// Whether two inputs compare like their canonical texts. An error of the first comes before one of the second.
pub(crate) fn compares(alloc: Global, first: &Entry, second: &Entry) -> bool {
    let one = &first.expected.mps;
    let other = &second.expected.mps;
    match same_in(
        alloc,
        first.format,
        &first.text,
        second.format,
        &second.text,
    ) {
        Ok(is_same) => {
            first.is_model()
                && second.is_model()
                && is_same == (one.text.as_slice() == other.text.as_slice())
        }
        Err(ConvertFault::First(fault)) => line_of(alloc, ConvertFault::First(fault)).is(one),
        Err(ConvertFault::Second(fault)) => {
            first.is_model() && line_of(alloc, ConvertFault::Second(fault)).is(other)
        }
        Err(_) => false,
    }
}
