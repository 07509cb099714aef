//! Tests of what the devices of mpslp_test_devices return and take, call by call.

use crate::streams::{flushes, reads, writes};
use mpslp_io::{IoFailed, Sink, Source};
use mpslp_test_devices::{FailingReader, FailingWriter};
use std::alloc::{AllocError, Global};
use std::test::Fail;

/// Whether a source of at least five bytes, whose third read fails, returns three bytes, then two for a buffer of two, and
/// then only errors; and what the buffer holds after the first two reads.
fn reads_twice<S: Source>(source: &mut S) -> ([bool; 4], [[u8; 5]; 2]) {
    let mut buffer = [0; 5];
    let reads_three = reads(source, &mut buffer, Ok(3), false, 1);
    let three = buffer;
    let reads_two = reads(source, &mut buffer[..2], Ok(2), false, 2);
    let two = buffer;
    let fails = reads(source, &mut buffer, Err(IoFailed), true, 3);
    let fails_again = reads(source, &mut buffer, Err(IoFailed), true, 4);
    ([reads_three, reads_two, fails, fails_again], [three, two])
}

#[test]
fn a_reader_gives_pieces_until_it_fails(rt: HostRuntime) {
    let found = reads_twice(&mut FailingReader::new(b"abcdefg", 3, 3));
    assert_eq!(rt; found, ([true; 4], [*b"abc\0\0", *b"dec\0\0"]));
}

/// Whether a source has two bytes, returns each in a read of its own, and then none; and the two bytes.
fn reads_single_bytes<S: Source>(source: &mut S) -> ([bool; 3], [u8; 2]) {
    let mut buffer = [0; 5];
    let reads_one = reads(source, &mut buffer, Ok(1), false, 1);
    let first = buffer[0];
    let reads_another = reads(source, &mut buffer, Ok(1), false, 2);
    let second = buffer[0];
    let reads_none = reads(source, &mut buffer, Ok(0), false, 3);
    ([reads_one, reads_another, reads_none], [first, second])
}

#[test]
fn a_reader_that_never_fails_gives_all_bytes(rt: HostRuntime) {
    let found = reads_single_bytes(&mut FailingReader::new(b"ab", 0, 0));
    assert_eq!(rt; found, ([true; 3], *b"ab"));
}

/// Whether a sink takes three bytes and a flush, then none of none, and two of four.
fn takes_five_bytes<S: Sink>(sink: &mut S) -> [bool; 4] {
    [
        writes(sink, b"abc", Ok(3), false, 1),
        flushes(sink, Ok(()), false, 2),
        writes(sink, b"", Ok(0), false, 3),
        writes(sink, b"defg", Ok(2), false, 4),
    ]
}

/// Whether a sink after four calls takes no more: each write fails, also one of no bytes, and each flush.
fn takes_no_more<S: Sink>(sink: &mut S) -> [bool; 3] {
    [
        writes(sink, b"fg", Err(IoFailed), true, 5),
        writes(sink, b"", Err(IoFailed), true, 6),
        flushes(sink, Err(IoFailed), true, 7),
    ]
}

/// Whether the calls of a writer with room for five bytes have their results, and whether it has these bytes when its room is
/// used up and after the calls that fail.
fn fills_room(
    alloc: Global,
    wanted: &[u8],
) -> Result<([bool; 4], [bool; 3], [bool; 2]), AllocError> {
    let mut writer = FailingWriter::new(alloc, 5)?;
    let are_taken = takes_five_bytes(&mut writer);
    let has_bytes = writer.bytes() == wanted;
    let are_refused = takes_no_more(&mut writer);
    Ok((
        are_taken,
        are_refused,
        [has_bytes, writer.bytes() == wanted],
    ))
}

#[test]
fn a_writer_takes_so_many_bytes_and_fails(rt: HostRuntime) -> Result<(), Fail> {
    let found = fills_room(rt.alloc(), b"abcde")?;
    assert_eq!(rt; found, ([true; 4], [true; 3], [true; 2]));
    Ok(())
}

/// Whether a flush of a writer without room fails, and how many bytes the writer has.
fn flushes_without_room(alloc: Global) -> Result<(bool, usize), AllocError> {
    let mut writer = FailingWriter::new(alloc, 0)?;
    let fails = flushes(&mut writer, Err(IoFailed), true, 1);
    Ok((fails, writer.bytes().len()))
}

#[test]
fn a_flush_fails_where_no_room_is_left(rt: HostRuntime) -> Result<(), Fail> {
    assert_eq!(rt; flushes_without_room(rt.alloc())?, (true, 0));
    Ok(())
}
