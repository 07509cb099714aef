//! Line ends in a piece of a text.

ghost use Rattle.std.specs.Prelude.{◌≡◌, ◌∷◌, ◌++◌, ◌<◌, [], length, MatchOption, IfSome};
ghost use Rattle.std.specs.Str.Lines.{lines, strip_carriage_return};
ghost use Rattle.mpslp_model.specs.CompleteLines.{open_tail, HasNoFeed};

use bstr::ByteSlice;

/// The line without the carriage return at its end, if it has one.
pub(crate) fn without_return(line: &[u8]) -> &[u8]
    ensures { result.now ≡ strip_carriage_return line.now }
{
    match line {
        [front @ .., b'\r'] => front,
        _ => line,
    }
}

/// The bytes before the first line feed and those after it, if there is one.
pub(crate) fn split_at_first_feed(piece: &[u8]) -> Option<(&[u8], &[u8])>
    ensures { MatchOption result (HasNoFeed piece.now) (λ parts. HasNoFeed parts.0.now × ((parts.0.now ++ 10 ∷ []) ++ parts.1.now ≡ piece.now)) }
{
    match piece.find_byte(b'\n') {
        Some(first) => Some((&piece[..first], &piece[first + 1..])),
        None => None,
    }
}

/// The first line, without its end, and the text after it; `None` if the text is empty.
#[inline(always)]
pub(crate) fn first_line(text: &[u8]) -> Option<(&[u8], &[u8])>
    ensures line { MatchOption result (lines text.now ≡ []) (λ found. lines text.now ≡ found.0.now ∷ lines found.1.now) }
    ensures rest { IfSome result (λ found. length found.1.now < length text.now) }
{
    if text.is_empty() {
        return None;
    }
    match split_at_first_feed(text) {
        Some((line, rest)) => Some((without_return(line), rest)),
        None => Some((text, &[])),
    }
}

/// The lines up to and including the last line feed, and the rest.
pub(crate) fn split_after_last_feed(piece: &[u8]) -> (&[u8], &[u8])
    ensures parts { result.0.now ++ result.1.now ≡ piece.now }
    ensures lines { open_tail result.0.now ≡ [] }
    ensures rest { HasNoFeed result.1.now }
{
    match piece.rfind_byte(b'\n') {
        Some(last) => piece.split_at(last + 1),
        None => piece.split_at(0),
    }
}
