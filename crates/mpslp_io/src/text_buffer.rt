//! A buffer between a text and a sink.

ghost use Rattle.std.specs.Prelude.{◌≡◌, ◌+◌, ◌<◌, ◌≤◌, List, [], ◌++◌, ℕ, true, false, not, ◌&&◌, ◌==◌, length, take, IsOk};
ghost use Rattle.mpslp_io.specs.TextBuffer.{BufferState, buffer_code, buffer_state, empty_buffer, with_waiting, with_header, HasPut, KeepsPut, Emits, PutsHeader, answer_of};
ghost use Rattle.mpslp_io.specs.Devices.{IsTaken};
ghost use Rattle.mpslp_io.specs.declared.text_buffer.TheConstants.{CAPACITY};

use crate::devices::Sink;
use crate::put::put_all;
use mpslp_types::WriteFault;
use std::marker::Model;

/// The most bytes that wait for the sink.
const CAPACITY: usize = 65536;

/// The most bytes of a short piece.
const SHORT: usize = 32;

/// What was sent to a sink: how many bytes it accepted, at most 2^64 - 1, and whether it failed. A sink that has failed is
/// not called again.
#[derive(Clone, Copy)]
struct Sent {
    taken: u64,
    has_failed: bool,
}

impl Sent {
    /// Sends a piece to the sink.
    fn send<W: Sink>(&mut self, sink: &mut W, piece: &[u8])
        ensures { (header : List ℕ) → KeepsPut W.holds W.failed W.count sink.old sink.new
            (buffer_state header piece.now self.old.taken self.old.has_failed) (buffer_state header [] self.new.taken self.new.has_failed) }
    {
        if self.has_failed {
            return;
        }
        match put_all(sink, &mut self.taken, piece) {
            Ok(()) => {}
            Err(_) => self.has_failed = true,
        }
    }
}

/// A buffer for a sink, so that the sink is called once for many pieces. After the sink has failed, it is not called again;
/// so pieces can be put one after another without a check after each, and [`finish`](Buffer::finish) returns the failure.
/// Does not allocate.
///
/// The header of a section that may be empty also waits here, and is put with the first line.
#[derive(Drop)]
pub struct Buffer {
    bytes: [u8; CAPACITY],
    /// How many of them wait.
    len: usize,
    sent: Sent,
    /// The header that waits for the first line of its section; empty if none waits.
    header: &'static [u8],
}

impl Model for Buffer {
    ghost Value = { BufferState };

    ghost coded = { buffer_code };

    ghost view = { λ b. record { waiting = take b.len b.bytes; taken = b.sent.taken; has_failed = b.sent.has_failed; header = b.header.now } };

    ghost invariant = { λ b. (b.len ≤ CAPACITY) × (length b.bytes ≡ CAPACITY) };
}

impl Buffer {
    /// An empty buffer, for a sink that has accepted nothing yet.
    pub fn new() -> Buffer
        ensures { result ≡ empty_buffer }
    {
        Buffer {
            bytes: [0; CAPACITY],
            len: 0,
            sent: Sent {
                taken: 0,
                has_failed: false,
            },
            header: b"".as_slice(),
        }
    }

    /// Appends a piece to the text.
    #[inline(always)]
    pub fn put<W: Sink>(&mut self, sink: &mut W, piece: &[u8])
        ensures { Emits W.holds W.failed W.count sink.old sink.new self.old self.new piece.now }
    {
        if piece.len() <= CAPACITY - self.len() {
            self.append(piece);
        } else {
            self.put_after_others(sink, piece);
        }
    }

    /// Appends a piece between two others, with one test for room if these are short.
    #[inline(always)]
    pub fn put_between<W: Sink>(&mut self, sink: &mut W, front: &[u8], piece: &[u8], back: &[u8])
        ensures { Emits W.holds W.failed W.count sink.old sink.new self.old self.new (front.now ++ (piece.now ++ back.now)) }
    {
        if front.len() <= SHORT
            && (back.len() <= SHORT
                && front.len() + piece.len() + back.len() <= CAPACITY - self.len())
        {
            self.append_between(front, piece, back);
        } else {
            self.put_in_turn(sink, front, piece, back);
        }
    }

    /// Appends three pieces, with a test for room for each.
    #[inline(never)]
    fn put_in_turn<W: Sink>(&mut self, sink: &mut W, first: &[u8], second: &[u8], third: &[u8])
        ensures { Emits W.holds W.failed W.count sink.old sink.new self.old self.new (first.now ++ (second.now ++ third.now)) }
    {
        self.put(sink, first);
        self.put(sink, second);
        self.put(sink, third);
    }

    /// Sends the bytes that wait, and appends a piece. [`put`](Buffer::put) is part of each caller, so what it does once for many
    /// pieces is a function of its own.
    #[inline(never)]
    fn put_after_others<W: Sink>(&mut self, sink: &mut W, piece: &[u8])
        ensures { Emits W.holds W.failed W.count sink.old sink.new self.old self.new piece.now }
    {
        self.hand_over(sink);
        if piece.len() <= CAPACITY {
            self.append(piece);
        } else {
            self.send(sink, piece);
        }
    }

    /// Begins a section. Its header waits for the first line.
    pub fn open_section(&mut self, header: &'static [u8])
        ensures { self.new ≡ with_header header.now self.old }
    {
        self.header = header;
    }

    /// Puts the header that waits, if there is one, before the first line of its section.
    pub fn put_header<W: Sink>(&mut self, sink: &mut W)
        ensures { PutsHeader W.holds W.failed W.count sink.old sink.new self.old self.new }
    {
        if self.header.is_empty() || self.has_failed() {
            return;
        }
        let header = self.header;
        self.header = b"".as_slice();
        self.put(sink, header);
    }

    /// Ends a section, without its header if it has no lines. Returns whether it has lines, and false if the sink has
    /// failed.
    pub fn close_section(&mut self) -> bool
        ensures closed { self.new ≡ with_header [] self.old }
        ensures has_lines { result ≡ (not self.old.has_failed && (length self.old.header == 0)) }
    {
        let has_lines = !self.has_failed() && self.header.is_empty();
        self.header = b"".as_slice();
        has_lines
    }

    /// Whether the sink has failed, so that nothing more needs to be put.
    pub fn has_failed(&self) -> bool
        ensures { result ≡ self.now.has_failed }
    {
        self.sent.has_failed
    }

    /// Sends the waiting bytes to the sink. If the sink has failed, now or before, returns [`Write`](WriteFault::Write) with
    /// the number of bytes of the text that it accepted.
    pub fn finish<W: Sink>(&mut self, sink: &mut W) -> Result<(), WriteFault>
        ensures answer { (first : W) (text header : List ℕ) → HasPut W.holds W.failed W.count first sink.old self.old text header
            → IsTaken W.holds W.failed first sink.new text result }
        ensures calls { (first : W) (text header : List ℕ) → HasPut W.holds W.failed W.count first sink.old self.old text header
            → W.count sink.new ≤ W.count first + length text }
        ensures stays { (first : W) (text header : List ℕ) → HasPut W.holds W.failed W.count first sink.old self.old text header
            → W.failed first ≡ true → W.failed sink.new ≡ true }
        ensures works { (first : W) (text header : List ℕ) → HasPut W.holds W.failed W.count first sink.old self.old text header
            → 0 < length text → IsOk result → W.failed sink.new ≡ false }
    {
        self.hand_over(sink);
        self.answer()
    }

    /// The number of bytes that wait.
    fn len(&self) -> usize
        ensures is { result ≡ length self.now.waiting }
        ensures fits { result ≤ CAPACITY }
    {
        self.len
    }

    /// Appends a piece to the waiting bytes.
    #[inline(always)]
    fn append(&mut self, piece: &[u8])
        requires { length self.old.waiting + length piece.now ≤ CAPACITY }
        ensures { self.new ≡ with_waiting (self.old.waiting ++ piece.now) self.old }
    {
        let end = self.len + piece.len();
        self.bytes[self.len..end].copy_from_slice(piece);
        self.len = end;
    }

    /// Appends a piece between two others to the waiting bytes.
    #[inline(always)]
    fn append_between(&mut self, front: &[u8], piece: &[u8], back: &[u8])
        requires { length self.old.waiting + (length front.now + (length piece.now + length back.now)) ≤ CAPACITY }
        ensures { self.new ≡ with_waiting (self.old.waiting ++ (front.now ++ (piece.now ++ back.now))) self.old }
    {
        self.append(front);
        self.append(piece);
        self.append(back);
    }

    /// Sends the waiting bytes to the sink.
    fn hand_over<W: Sink>(&mut self, sink: &mut W)
        ensures put { KeepsPut W.holds W.failed W.count sink.old sink.new self.old self.new }
        ensures emptied { self.new.waiting ≡ [] }
    {
        self.sent.send(sink, &self.bytes[..self.len]);
        self.len = 0;
    }

    /// Sends a piece to the sink, if no bytes wait.
    fn send<W: Sink>(&mut self, sink: &mut W, piece: &[u8])
        requires { self.old.waiting ≡ [] }
        ensures { KeepsPut W.holds W.failed W.count sink.old sink.new (with_waiting piece.now self.old) self.new }
    {
        self.sent.send(sink, piece);
    }

    /// The result for the text that was sent so far.
    fn answer(&self) -> Result<(), WriteFault>
        ensures { result ≡ answer_of self.now }
    {
        if self.sent.has_failed {
            Err(WriteFault::Write {
                written: self.sent.taken,
            })
        } else {
            Ok(())
        }
    }
}
