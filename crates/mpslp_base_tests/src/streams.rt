//! Tests of std's readers and writers as sources and sinks, with and without failures.

use mpslp_io::{FromRead, IoFailed, Sink, Source, ToWrite};
use std::alloc::Global;
use std::io;
use std::io::{Error, ErrorKind, Read, Write};

/// Returns two bytes from each read, but fails in one read, counted from 1.
#[derive(Drop)]
struct FailingReader {
    fails_in: u64,
    reads: u64,
}

impl Read for FailingReader {
    fn read(&mut self, buffer: &mut [u8]) -> io::Result<usize> {
        self.reads = self.reads.saturating_add(1);
        if self.reads == self.fails_in {
            return Err(Error::from(ErrorKind::Interrupted));
        }
        let given = buffer.len().min(2);
        buffer[..given].fill(b'a');
        Ok(given)
    }
}

/// How a writer rejects a write for which it has no room.
#[derive(Clone, Copy, Debug, PartialEq, Eq)]
enum Refusal {
    TakesNothing,
    IsInterrupted,
    HasError,
}

/// Takes as many bytes as it has room for, then none. Its flush fails if it has no room.
#[derive(Drop)]
struct FailingWriter {
    held: Vec<u8>,
    room: usize,
    refusal: Refusal,
    calls: u64,
}

impl FailingWriter {
    fn new(alloc: Global, room: usize, refusal: Refusal) -> FailingWriter {
        FailingWriter {
            held: Vec::new(alloc),
            room,
            refusal,
            calls: 0,
        }
    }
}

impl Write for FailingWriter {
    fn write(&mut self, piece: &[u8]) -> io::Result<usize> {
        self.calls = self.calls.saturating_add(1);
        let taken = piece.len().min(self.room);
        if taken == 0 && !piece.is_empty() {
            return match self.refusal {
                Refusal::TakesNothing => Ok(0),
                Refusal::IsInterrupted => Err(Error::from(ErrorKind::Interrupted)),
                Refusal::HasError => Err(Error::from(ErrorKind::Other)),
            };
        }
        self.held.extend_from_slice(&piece[..taken])?;
        self.room -= taken;
        Ok(taken)
    }

    fn flush(&mut self) -> io::Result<()> {
        self.calls = self.calls.saturating_add(1);
        if self.room == 0 {
            return Err(Error::from(ErrorKind::Other));
        }
        Ok(())
    }
}

/// Whether a read has this result, after which the source has failed or not and was called so many times.
pub(crate) fn reads<S: Source>(
    source: &mut S,
    buffer: &mut [u8],
    answer: Result<usize, IoFailed>,
    has_failed: bool,
    calls: u64,
) -> bool {
    source.read(buffer) == answer && (source.has_failed() == has_failed && source.calls() == calls)
}

/// Whether a write has this result, after which the sink has failed or not and was called so many times.
pub(crate) fn writes<S: Sink>(
    sink: &mut S,
    piece: &[u8],
    answer: Result<usize, IoFailed>,
    has_failed: bool,
    calls: u64,
) -> bool {
    sink.write(piece) == answer && (sink.has_failed() == has_failed && sink.calls() == calls)
}

/// Whether a flush has this result, after which the sink has failed or not and was called so many times.
pub(crate) fn flushes<S: Sink>(
    sink: &mut S,
    answer: Result<(), IoFailed>,
    has_failed: bool,
    calls: u64,
) -> bool {
    sink.flush() == answer && (sink.has_failed() == has_failed && sink.calls() == calls)
}

/// Whether a source has two bytes, then one, and then none, and puts them into the buffer.
fn reads_three_bytes<S: Source>(source: &mut S) -> [bool; 6] {
    let mut buffer = [0; 2];
    let is_new = source.calls() == 0;
    let reads_two = reads(source, &mut buffer, Ok(2), false, 1);
    let has_two = buffer.as_slice() == b"ab".as_slice();
    let reads_one = reads(source, &mut buffer, Ok(1), false, 2);
    let has_one = buffer[0] == b'c';
    let reads_none = reads(source, &mut buffer, Ok(0), false, 3);
    [is_new, reads_two, has_two, reads_one, has_one, reads_none]
}

#[test]
fn reads_to_the_end(rt: HostRuntime) {
    let answers = reads_three_bytes(&mut FromRead::new(b"abc".as_slice()));
    assert_eq!(rt; answers, [true; 6]);
}

#[test]
fn a_buffer_without_room_is_a_read(rt: HostRuntime) {
    let mut source = FromRead::new(b"abc".as_slice());
    assert!(rt; reads(&mut source, &mut [], Ok(0), false, 1));
    assert_eq!(rt; source.into_inner(), b"abc".as_slice());
}

#[test]
fn a_failure_without_room_is_reported(rt: HostRuntime) {
    let mut source = FromRead::new(FailingReader {
        fails_in: 1,
        reads: 0,
    });
    assert!(rt; reads(&mut source, &mut [], Err(IoFailed), true, 1));
    assert!(rt; reads(&mut source, &mut [], Err(IoFailed), true, 2));
    assert_eq!(rt; source.into_inner().reads, 1);
}

#[test]
fn a_reader_that_failed_is_not_read_again(rt: HostRuntime) {
    let mut reader = FailingReader {
        fails_in: 2,
        reads: 0,
    };
    let mut source = FromRead::new(&mut reader);
    let mut buffer = [0; 3];
    assert!(rt; reads(&mut source, &mut buffer, Ok(2), false, 1));
    assert!(rt; reads(&mut source, &mut buffer, Err(IoFailed), true, 2));
    assert!(rt; reads(&mut source, &mut buffer, Err(IoFailed), true, 3));
    assert_eq!(rt; reader.reads, 2);
}

/// Whether a sink takes three bytes, then none, and is flushed.
fn takes_and_flushes<S: Sink>(sink: &mut S) -> bool {
    let is_new = sink.calls() == 0;
    let takes_bytes = writes(sink, b"abc", Ok(3), false, 1);
    let takes_none = writes(sink, b"", Ok(0), false, 2);
    let is_flushed = flushes(sink, Ok(()), false, 3);
    is_new && (takes_bytes && (takes_none && is_flushed))
}

/// Whether a sink into a vector takes three bytes and is flushed, and whether the vector has the bytes then.
fn writes_into_a_vector(alloc: Global) -> (bool, bool) {
    let mut held = Vec::new(alloc);
    let is_taken = takes_and_flushes(&mut ToWrite::new(&mut held));
    (is_taken, held.as_slice() == b"abc".as_slice())
}

#[test]
fn writes_and_flushes(rt: HostRuntime) {
    assert_eq!(rt; writes_into_a_vector(rt.alloc()), (true, true));
}

/// Whether a sink with room for 10 bytes takes them and then fails.
fn takes_ten_bytes<S: Sink>(sink: &mut S) -> bool {
    let takes_front = writes(sink, b"abcdefgh", Ok(8), false, 1);
    let is_flushed = flushes(sink, Ok(()), false, 2);
    let takes_end = writes(sink, b"ijkl", Ok(2), false, 3);
    let fails = writes(sink, b"kl", Err(IoFailed), true, 4);
    takes_front && (is_flushed && (takes_end && fails))
}

/// Whether a sink that has failed in its fourth call fails in a write and in a flush.
fn stays_failed<S: Sink>(sink: &mut S) -> bool {
    let fails_in_write = writes(sink, b"", Err(IoFailed), true, 5);
    let fails_in_flush = flushes(sink, Err(IoFailed), true, 6);
    fails_in_write && fails_in_flush
}

/// Whether a writer that rejects a write so is not called again, and has what it took before.
fn is_not_called_again(alloc: Global, refusal: Refusal) -> bool {
    let mut writer = FailingWriter::new(alloc, 10, refusal);
    let mut sink = ToWrite::new(&mut writer);
    let is_taken = takes_ten_bytes(&mut sink);
    let is_failed = stays_failed(&mut sink);
    let is_held = writer.calls == 4 && writer.held.as_slice() == b"abcdefghij".as_slice();
    is_taken && (is_failed && is_held)
}

#[test]
fn a_writer_that_failed_is_not_called_again(rt: HostRuntime) {
    for refusal in [
        Refusal::TakesNothing,
        Refusal::IsInterrupted,
        Refusal::HasError,
    ] {
        assert!(rt; is_not_called_again(rt.alloc(), refusal), "{refusal:?}");
    }
}

/// Whether a sink takes three bytes, and fails in the flush and in the write after it.
fn fails_in_flush<S: Sink>(sink: &mut S) -> bool {
    let takes_bytes = writes(sink, b"abc", Ok(3), false, 1);
    let fails = flushes(sink, Err(IoFailed), true, 2);
    let stays_failed = writes(sink, b"", Err(IoFailed), true, 3);
    takes_bytes && (fails && stays_failed)
}

#[test]
fn a_flush_that_fails_is_reported(rt: HostRuntime) {
    let mut writer = FailingWriter::new(rt.alloc(), 3, Refusal::HasError);
    assert!(rt; fails_in_flush(&mut ToWrite::new(&mut writer)));
    assert_eq!(rt; writer.calls, 2);
}
