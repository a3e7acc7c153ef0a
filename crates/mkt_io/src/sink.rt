// Where bytes go to.
ghost use Rattle.std.specs.Prelude.{◌≡◌, ◌<◌, ◌≤◌, ℕ, List, Option, length, take, IfOk, OnErr};
ghost use Rattle.std.specs.Io.KnownBytes.{Appends, Keeps};
ghost use Rattle.mkt_io.specs.Faults.{Rises};
ghost use Rattle.mkt_io.specs.Sink.{Writes};

/// A call failed: the object's count of faults rose.
#[derive(Clone, Copy, Debug, PartialEq, Eq)]
pub struct Failed;

/// The sink failed. A part of the bytes from their front on may have been written.
#[derive(Clone, Copy, Debug, PartialEq, Eq)]
pub struct WriteFault;

/// Something that bytes are written to.
pub trait Sink {
    /// The bytes written, where the sink tells them.
    ghost contents: { Self → Option (List ℕ) };

    /// How often it has failed, as a u64 that stops at its last value.
    ghost faults: { Self → ℕ };

    /// Writes a part of the piece from its front on, and answers how many bytes of it.
    fn write(&mut self, piece: &[u8]) -> Result<usize, Failed>
        requires { 0 < length piece.now }
        ensures some { IfOk result (λ n. 0 < n) }
        ensures within { IfOk result (λ n. n ≤ length piece.now) }
        ensures appended { IfOk result (λ n. Appends (contents self.old) (contents self.new) (take n piece.now)) }
        ensures unchanged { OnErr result (Keeps (contents self.old) (contents self.new)) }
        ensures failed { OnErr result (Rises (faults self.old) (faults self.new)) }
        ensures count { faults self.old ≤ faults self.new };
}

/// Writes all the bytes. After a fault a part of them from their front on has been written.
pub fn write_all<O: Sink>(sink: &mut O, bytes: &[u8]) -> Result<(), WriteFault>
    ensures { Writes O.contents O.faults sink.old bytes.now sink.new result }
{
    let mut written = 0;
    while written < bytes.len() {
        match sink.write(&bytes[written..]) {
            Ok(n) => written += n,
            Err(Failed) => return Err(WriteFault),
        }
    }
    Ok(())
}
