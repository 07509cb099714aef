//! The line that reports the error of a run.

ghost use Rattle.std.specs.Prelude.{◌≡◌, ◌+◌, ◌≤◌, ◌++◌, ℕ, List, [], true, false, Option, length, IsOk, decimal};
ghost use Rattle.mpslp_conversions.specs.FaultLine.{line_text, name_text, place_text, file_text, fault_text, fault_line, status_of};
ghost use Rattle.mpslp_io.specs.Devices.{IsTaken};

use crate::faults::RunFault;
use arrayvec::ArrayVec;
use itoa::Buffer;
use mpslp_model::laws::each_name_is_legal;
use mpslp_model::{Fault, Name, NameAt, Sink, WriteFault, put_all};
use std::marker::Model;

/// The most bytes of a number, as itoa prints it.
const NUMBER_LEN: usize = 40;

/// The most bytes of the word before a number and of the space between them.
const WORD_LEN: usize = 7;

/// The most bytes of a place: a word, or one with a number.
const PLACE_LEN: usize = WORD_LEN + NUMBER_LEN;

/// The most bytes of a name and of the space before it.
const NAME_LEN: usize = 256;

/// The most bytes of the text of an error: a place, a colon and a space, a kind of at most 16 bytes, and a name.
const TEXT_LEN: usize = PLACE_LEN + 2 + 16 + NAME_LEN;

/// Enough for every line: a text and its line feed.
const CAPACITY: usize = 384;

/// The line of an error, in a buffer on the stack.
#[derive(Drop)]
pub struct Line {
    bytes: ArrayVec<u8, CAPACITY>,
}

impl Model for Line {
    ghost Value = { List ℕ };

    ghost view = { λ line. line.bytes.items };
}

impl Line {
    fn new() -> Line
        ensures { result ≡ [] }
    {
        Line {
            bytes: ArrayVec::new(),
        }
    }

    /// Its bytes, with the line feed at the end.
    pub fn as_bytes(&self) -> &[u8]
        ensures { result.now ≡ self.now }
    {
        self.bytes.as_slice()
    }

    fn put(&mut self, piece: &[u8])
        requires { length self.old + length piece.now ≤ CAPACITY }
        ensures { self.new ≡ self.old ++ piece.now }
    {
        let is_full = self.bytes.try_extend_from_slice(piece).is_err();
        prove!(!is_full);
    }

    fn put_number(&mut self, number: u64)
        requires { length self.old + NUMBER_LEN ≤ CAPACITY }
        ensures text { self.new ≡ self.old ++ decimal number }
        ensures bound { length self.new ≤ length self.old + NUMBER_LEN }
    {
        self.put(Buffer::new().format(number).as_bytes());
    }

    fn put_name(&mut self, name: &Option<Name>)
        requires { length self.old + NAME_LEN ≤ CAPACITY }
        ensures text { self.new ≡ self.old ++ name_text name.now }
        ensures bound { length self.new ≤ length self.old + NAME_LEN }
    {
        if let Some(name) = name {
            each_name_is_legal(name);
            self.put(b" ");
            self.put(name.as_bytes());
        }
    }

    /// A text followed by a number.
    fn numbered(text: &[u8], number: u64) -> Line
        requires { length text.now ≤ WORD_LEN }
        ensures text { result ≡ text.now ++ decimal number }
        ensures bound { length result ≤ PLACE_LEN }
    {
        let mut line = Line::new();
        line.put(text);
        line.put_number(number);
        line
    }

    /// A text.
    fn plain(text: &[u8]) -> Line
        requires { length text.now ≤ CAPACITY }
        ensures { result ≡ text.now }
    {
        let mut line = Line::new();
        line.put(text);
        line
    }

    /// The place of an error in a file: its line, or the whole file.
    fn of_line(line: u64) -> Line
        ensures text { result ≡ line_text line }
        ensures bound { length result ≤ PLACE_LEN }
    {
        if line == 0 {
            Line::plain(b"file")
        } else {
            Line::numbered(b"line ", line)
        }
    }

    /// A name in a model, by its number.
    fn of_place(name_at: NameAt) -> Line
        ensures text { result ≡ place_text name_at }
        ensures bound { length result ≤ PLACE_LEN }
    {
        match name_at {
            NameAt::Objective => Line::plain(b"objective"),
            NameAt::Row(i) => Line::numbered(b"row ", i as u64),
            NameAt::Column(j) => Line::numbered(b"column ", j as u64),
        }
    }

    /// The text that reports an error of a file.
    fn of_file(fault: &Fault) -> Line
        ensures text { result ≡ file_text fault.now }
        ensures bound { length result ≤ TEXT_LEN }
    {
        let mut line = Line::of_line(fault.line);
        line.put(b": ");
        line.put(fault.kind.text().as_bytes());
        line.put_name(&fault.name);
        line
    }

    /// The text that reports a name that is not legal in the format.
    fn of_not_lp(name_at: NameAt) -> Line
        ensures text { result ≡ fault_text (RunFault.NotLp name_at) }
        ensures bound { length result ≤ TEXT_LEN }
    {
        let mut line = Line::of_place(name_at);
        line.put(b": NotLp");
        line
    }

    /// The text that reports an error.
    fn of_fault(fault: &RunFault) -> Line
        ensures text { result ≡ fault_text fault.now }
        ensures bound { length result ≤ TEXT_LEN }
    {
        match fault {
            RunFault::Read => Line::plain(b"read failed"),
            RunFault::TooLong => Line::plain(b"file: TooLong"),
            RunFault::File(fault) => Line::of_file(fault),
            RunFault::NotLp(name_at) => Line::of_not_lp(*name_at),
            RunFault::Write { written: _ } => Line::plain(b"write failed"),
            RunFault::OutOfMemory => Line::plain(b"out of memory"),
        }
    }
}

impl RunFault {
    /// The exit status of a program that ends with this error: 2 if the file is rejected, 4 if a device failed, 5 if memory ran
    /// out.
    pub fn status(&self) -> u8
        ensures { result ≡ status_of self.now }
    {
        match self {
            RunFault::Read => 4,
            RunFault::TooLong => 2,
            RunFault::File(_) => 2,
            RunFault::NotLp(_) => 2,
            RunFault::Write { written: _ } => 4,
            RunFault::OutOfMemory => 5,
        }
    }
}

/// Returns the line of an error, as [`report`] writes it. Allocates nothing.
pub fn line_of(fault: &RunFault) -> Line
    ensures { result ≡ fault_line fault.now }
{
    let mut line = Line::of_fault(fault);
    line.put(b"\n");
    line
}

/// Writes the line of an error. Makes at most as many calls as the line has bytes, does not flush and allocates nothing.
///
/// # Errors
///
/// [`Write`](WriteFault::Write) if and only if the sink has failed when the call ends; it has then taken only the reported
/// number of bytes from the start of the line. [`NotLp`](WriteFault::NotLp) is never returned.
pub fn report<W: Sink>(fault: &RunFault, sink: &mut W) -> Result<(), WriteFault>
    ensures answer { IsTaken W.holds W.failed sink.old sink.new (fault_line fault.now) result }
    ensures succeeds { W.failed sink.new ≡ false → IsOk result }
    ensures works { IsOk result → W.failed sink.new ≡ false }
    ensures calls { W.count sink.new ≤ W.count sink.old + length (fault_line fault.now) }
    ensures stays { W.failed sink.old ≡ true → W.failed sink.new ≡ true }
{
    let line = line_of(fault);
    let mut tally = 0;
    match put_all(sink, &mut tally, line.as_bytes()) {
        Ok(()) => Ok(()),
        Err(_) => Err(WriteFault::Write { written: tally }),
    }
}
