// A printer: lines of words, gathered in a block before they are written.
ghost use Rattle.std.specs.Prelude.{◌≡◌, ◌+◌, ◌≤◌, ℕ, List, length, [], ◌∷◌, ◌++◌};
ghost use Rattle.std.specs.Fmt.{decimal};
ghost use Rattle.mkt_base.specs.Text.{line, time_text};
ghost use Rattle.mkt_io.specs.Printed.{Emitted};
ghost use Rattle.mkt_io.specs.Sink.{Writes};
ghost use Rattle.mkt_io.specs.declared.block.TheConstants.{BLOCK};

use crate::block::Block;
use crate::text::{DIGITS, moment_text};
use crate::{Sink, WriteFault, write_all};
use mkt_base::Moment;

/// Gathers the words of lines in a block of 4,096 bytes, and writes it to the sink when it is full.
pub struct Printer<'a, O: Sink> {
    sink: &'a mut O,
    block: Block,
    in_line: bool,
    fault: bool,
}

// Words and lines are told by `PrintsWords` and `PrintsLines`: they name the private field `sink`, in which the borrow
// checker reads that the printer still holds the reference that it was made over.
impl<'a, O: Sink> Printer<'a, O> {
    ghost use Rattle.mkt_io.specs.Printed.{EndsLine, Handed, Printed, PrintsLines, PrintsWords, has_fault, with_words};

    /// A printer that has printed nothing.
    pub fn new(sink: &'a mut O) -> Printer<'a, O>
        ensures same_sink { result.sink.ghost_name ≡ sink.entry.ghost_name }
        ensures nothing { Printed O.contents O.faults sink.old [] [] result }
    {
        Printer {
            sink,
            block: Block::new(),
            in_line: false,
            fault: false,
        }
    }

    /// Adds a word to the line.
    #[inline(always)]
    pub fn word(&mut self, text: &str)
        ensures { PrintsWords O.contents O.faults self.old self.new (text.now ∷ []) }
    {
        self.put_word(text.as_bytes());
    }

    /// Adds a number's decimal digits to the line, as a word.
    #[inline]
    pub fn number(&mut self, n: u64)
        ensures { PrintsWords O.contents O.faults self.old self.new (decimal n ∷ []) }
    {
        self.make_room(DIGITS + 1);
        self.block.push_space(self.in_line);
        self.block.extend_decimal(n);
        self.in_line = true;
    }

    /// Adds a moment to the line, as a word HH:MM:SS.mmm.
    #[inline]
    pub fn moment(&mut self, at: Moment)
        ensures { PrintsWords O.contents O.faults self.old self.new (time_text at ∷ []) }
    {
        self.put_word(&moment_text(at.ms()));
    }

    /// Ends the line by LF.
    #[inline]
    pub fn line_end(&mut self)
        ensures { EndsLine O.contents O.faults self.old self.new }
    {
        self.make_room(1);
        self.block.push(b'\n');
        self.in_line = false;
    }

    /// Whether a fault is kept.
    pub fn fault(&self) -> bool
        ensures { result ≡ has_fault self.now }
    {
        self.fault
    }

    // Adds the bytes of a word to the line, behind a space where a word stands before it.
    #[inline(always)]
    fn put_word(&mut self, bytes: &[u8])
        ensures { PrintsWords O.contents O.faults self.old self.new (bytes.now ∷ []) }
    {
        if bytes.len() >= self.block.room() {
            self.put_word_at_end(bytes);
            return;
        }
        self.block.push_space(self.in_line);
        self.block.extend(bytes);
        self.in_line = true;
    }

    // Adds a word that what is left of the block does not hold, with a space.
    #[cold]
    #[inline(never)]
    fn put_word_at_end(&mut self, bytes: &[u8])
        ensures { PrintsWords O.contents O.faults self.old self.new (bytes.now ∷ []) }
    {
        if self.in_line {
            self.put(b" ");
            self.put(bytes);
        } else {
            self.put(bytes);
            self.in_line = true;
        }
    }

    // Writes out the block where it has not so much room.
    #[inline]
    fn make_room(&mut self, bytes: usize)
        requires { bytes ≤ BLOCK }
        ensures same_sink { self.new.sink.ghost_name ≡ self.old.sink.ghost_name }
        ensures handed { (from : O) (before : List ℕ)
            → Handed O.contents O.faults from before self.old
            → Handed O.contents O.faults from before self.new }
        ensures in_line { self.new.in_line ≡ self.old.in_line }
        ensures room { length self.new.block + bytes ≤ BLOCK }
    {
        if self.block.room() < bytes {
            self.flush();
        }
    }

    // Adds bytes to the block, which is written out first where they do not fit.
    fn put(&mut self, bytes: &[u8])
        ensures same_sink { self.new.sink.ghost_name ≡ self.old.sink.ghost_name }
        ensures handed { (from : O) (before : List ℕ)
            → Handed O.contents O.faults from before self.old
            → Handed O.contents O.faults from (before ++ bytes.now) self.new }
        ensures in_line { self.new.in_line ≡ self.old.in_line }
    {
        if bytes.len() <= self.block.room() {
            self.block.extend(bytes);
        } else {
            self.flush();
            self.put_first(bytes);
        }
    }

    // Adds bytes where the block is empty. What no block holds is written at once.
    fn put_first(&mut self, bytes: &[u8])
        requires { self.old.block ≡ [] }
        ensures same_sink { self.new.sink.ghost_name ≡ self.old.sink.ghost_name }
        ensures handed { (from : O) (before : List ℕ)
            → Handed O.contents O.faults from before self.old
            → Handed O.contents O.faults from (before ++ bytes.now) self.new }
        ensures in_line { self.new.in_line ≡ self.old.in_line }
    {
        if bytes.len() <= self.block.room() {
            self.block.extend(bytes);
        } else {
            self.fault = emit(self.sink, self.fault, bytes);
        }
    }

    // Writes out the block.
    #[cold]
    #[inline(never)]
    fn flush(&mut self)
        ensures same_sink { self.new.sink.ghost_name ≡ self.old.sink.ghost_name }
        ensures handed { (from : O) (before : List ℕ)
            → Handed O.contents O.faults from before self.old
            → Handed O.contents O.faults from before self.new }
        ensures in_line { self.new.in_line ≡ self.old.in_line }
        ensures empty { self.new.block ≡ [] }
    {
        self.fault = emit(self.sink, self.fault, self.block.as_slice());
        self.block.clear();
    }

    /// Writes what is left in the block, and answers a fault that is kept. At `Ok` all that was printed is
    /// written, and at `Err` a part of it from its front on.
    pub fn finish(self) -> Result<(), WriteFault>
        ensures { (from : O) (text : List ℕ) (words : List (List ℕ))
            → Printed O.contents O.faults from text words self.entry
            → Writes O.contents O.faults from (with_words text words) self.exit.0.now result }
    {
        let Printer {
            sink,
            block,
            in_line: _,
            fault,
        } = self;
        if emit(sink, fault, block.as_slice()) {
            return Err(WriteFault);
        }
        Ok(())
    }
}

// Writes a text where no fault is kept, and answers whether one is kept now.
fn emit<O: Sink>(sink: &mut O, kept: bool, text: &[u8]) -> bool
    ensures { Emitted O.contents O.faults sink.old kept text.now sink.new result }
{
    if kept {
        return true;
    }
    write_all(sink, text).is_err()
}
