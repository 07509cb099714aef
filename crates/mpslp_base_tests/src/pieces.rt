//! Tests of a piece that is written in several calls.

use mpslp_io::{IoFailed, Sink, ToWrite, put_all};
use std::io;
use std::io::Write;

/// Takes two bytes in each write while it has room, then none.
#[derive(Drop)]
struct SmallWriter {
    room: usize,
}

impl Write for SmallWriter {
    fn write(&mut self, piece: &[u8]) -> io::Result<usize> {
        let taken = piece.len().min(self.room).min(2);
        self.room -= taken;
        Ok(taken)
    }

    fn flush(&mut self) -> io::Result<()> {
        Ok(())
    }
}

/// The result of a piece, and then the tally of bytes and the number of calls.
type Put = (Result<(), IoFailed>, u64, u64);

/// Puts a piece.
fn put(sink: &mut ToWrite<SmallWriter>, tally: &mut u64, piece: &[u8]) -> Put {
    let answer = put_all(sink, tally, piece);
    (answer, *tally, sink.calls())
}

/// Puts three pieces into a writer with room for 9 bytes, with a tally of 7.
fn put_three() -> [Put; 3] {
    let mut tally = 7;
    let mut sink = ToWrite::new(SmallWriter { room: 9 });
    [
        put(&mut sink, &mut tally, b"abcde"),
        put(&mut sink, &mut tally, b""),
        put(&mut sink, &mut tally, b"fghij"),
    ]
}

#[test]
fn a_piece_is_written_in_several_calls(rt: HostRuntime) {
    let [first, empty, last] = put_three();
    assert_eq!(rt; first, (Ok(()), 12, 3));
    assert_eq!(rt; empty, (Ok(()), 12, 3));
    assert_eq!(rt; last, (Err(IoFailed), 16, 6));
}

/// Puts a byte and then nothing into a writer without room. Whether its sink failed comes last.
fn put_without_room() -> ([Put; 2], bool) {
    let mut tally = 0;
    let mut sink = ToWrite::new(SmallWriter { room: 0 });
    let puts = [
        put(&mut sink, &mut tally, b"a"),
        put(&mut sink, &mut tally, b""),
    ];
    (puts, sink.has_failed())
}

#[test]
fn the_empty_piece_is_written_to_a_sink_that_failed(rt: HostRuntime) {
    let ([first, empty], has_failed) = put_without_room();
    assert_eq!(rt; first, (Err(IoFailed), 0, 1));
    assert_eq!(rt; empty, (Ok(()), 0, 1));
    assert_eq!(rt; has_failed, true);
}
