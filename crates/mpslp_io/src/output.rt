//! Where a text is printed: a sink, and the buffer before it.

ghost use Rattle.std.specs.Prelude.{◌≡◌, ◌+◌, ◌<◌, ◌≤◌, List, [], ◌++◌, ℕ, true, false, not, ◌&&◌, ◌==◌, length, IsOk};
ghost use Rattle.mpslp_io.specs.Devices.{IsTaken};
ghost use Rattle.mpslp_io.specs.TextBuffer.{empty_buffer};
ghost use Rattle.mpslp_io.specs.Printing.{IsSameOutput, Holds, Puts, PutsWaiting, HasHeader};

use crate::devices::Sink;
use crate::text_buffer::Buffer;
use mpslp_types::WriteFault;

/// A sink and the buffer before it, so that functions that print take one argument for both. After the sink has failed, it is
/// not called again, as [`Buffer`] says.
#[derive(Drop)]
pub struct Output<'a, W> {
    sink: &'a mut W,
    buffer: &'a mut Buffer,
}

impl<'a, W: Sink> Output<'a, W> {
    /// An output to the sink. The bytes that wait for it are in the buffer.
    pub fn new(sink: &'a mut W, buffer: &'a mut Buffer) -> Output<'a, W>
        ensures same_sink { result.sink.ghost_name ≡ sink.entry.ghost_name }
        ensures same_buffer { result.buffer.ghost_name ≡ buffer.entry.ghost_name }
        ensures empty { buffer.old ≡ empty_buffer → Holds W.Sink sink.old result [] [] }
    {
        Output { sink, buffer }
    }

    /// Appends a piece to the text.
    #[inline(always)]
    pub fn put(&mut self, piece: &[u8])
        ensures { Puts W.Sink self.old self.new piece.now }
    {
        self.buffer.put(self.sink, piece);
    }

    /// Appends a piece between two others, which is quickest if these are short.
    #[inline(always)]
    pub fn put_between(&mut self, front: &[u8], piece: &[u8], back: &[u8])
        ensures { Puts W.Sink self.old self.new (front.now ++ (piece.now ++ back.now)) }
    {
        self.buffer.put_between(self.sink, front, piece, back);
    }

    /// Begins a section. Its header waits for the first line.
    pub fn open_section(&mut self, header: &'static [u8])
        ensures { HasHeader header.now self.old self.new }
    {
        self.buffer.open_section(header);
    }

    /// Puts the header that waits, if there is one, before the first line of its section.
    pub fn put_header(&mut self)
        ensures { PutsWaiting W.Sink self.old self.new }
    {
        self.buffer.put_header(self.sink);
    }

    /// Ends a section, without its header if it has no lines. Returns whether it has lines, and false if the sink has
    /// failed.
    pub fn close_section(&mut self) -> bool
        ensures closed { HasHeader [] self.old self.new }
        ensures has_lines { result ≡ (not self.old.buffer.now.has_failed && (length self.old.buffer.now.header == 0)) }
    {
        self.buffer.close_section()
    }

    /// Whether the sink has failed, so that nothing more needs to be put.
    pub fn has_failed(&self) -> bool
        ensures { result ≡ self.now.buffer.now.has_failed }
    {
        self.buffer.has_failed()
    }

    /// Sends the waiting bytes to the sink. If the sink has failed, now or before, returns [`Write`](WriteFault::Write) with
    /// the number of bytes of the text that it accepted.
    pub fn finish(&mut self) -> Result<(), WriteFault>
        ensures same { IsSameOutput self.old self.new }
        ensures answer { (first : W) (text header : List ℕ) → Holds W.Sink first self.old text header
            → IsTaken W.holds W.failed first self.new.sink.now text result }
        ensures calls { (first : W) (text header : List ℕ) → Holds W.Sink first self.old text header → W.count self.new.sink.now ≤ W.count first + length text }
        ensures stays { (first : W) (text header : List ℕ) → Holds W.Sink first self.old text header
            → W.failed first ≡ true → W.failed self.new.sink.now ≡ true }
        ensures works { (first : W) (text header : List ℕ) → Holds W.Sink first self.old text header
            → 0 < length text → IsOk result → W.failed self.new.sink.now ≡ false }
    {
        self.buffer.finish(self.sink)
    }
}
