// Where bytes come from.
ghost use Rattle.std.specs.Prelude.{◌≡◌, ◌+◌, ◌<◌, ◌≤◌, ℕ, List, [], Option, Some, length, take, drop, Contains, IfOk, IfSome, IsSomeAnd, IsErrOf, OnOk, OnErr};
ghost use Rattle.mkt_io.specs.Faults.{Rises};

use crate::Failed;
use std::alloc::Global;

/// A shelf of named files, of which one at a time is read.
pub trait Shelf {
    /// The names that may be asked for.
    ghost names: { Self → List (List ℕ) };

    /// The bytes of the file of each name, where there is one; where the shelf tells them.
    ghost files: { Self → Option (List ℕ → Option (List ℕ)) };

    /// The bytes left of the chosen file, where the shelf tells them.
    ghost left: { Self → Option (List ℕ) };

    /// How often it has failed, as a u64 that stops at its last value.
    ghost faults: { Self → ℕ };

    /// Chooses the file of this name, to be read from its front. A name that is not there is a fault.
    fn choose(&mut self, name: &str) -> Result<(), Failed>
        requires { Contains (names self.old) name.now }
        ensures names { names self.new ≡ names self.old }
        ensures files { files self.new ≡ files self.old }
        ensures chosen { OnOk result (IfSome (files self.old) (λ file.
            IsSomeAnd (file name.now) (λ bytes. left self.new ≡ Some bytes))) }
        ensures failed { OnErr result (Rises (faults self.old) (faults self.new)) }
        ensures count { faults self.old ≤ faults self.new };

    /// Moves bytes from the front of what is left to the front of the buffer, and answers how many: 0
    /// where nothing is left.
    fn read(&mut self, buf: &mut [u8]) -> Result<usize, Failed>
        requires { 0 < length buf.old }
        ensures names { names self.new ≡ names self.old }
        ensures files { files self.new ≡ files self.old }
        ensures within { IfOk result (λ n. n ≤ length buf.old) }
        ensures moved { IfOk result (λ n. IfSome (left self.old) (λ bytes.
            (take n buf.new ≡ take n bytes) × (n ≤ length bytes))) }
        ensures left { IfOk result (λ n. IfSome (left self.old) (λ bytes.
            left self.new ≡ Some (drop n bytes))) }
        ensures end { IfOk result (λ n. IfSome (left self.old) (λ bytes. n ≡ 0 → bytes ≡ [])) }
        ensures unchanged { OnErr result (left self.new ≡ left self.old) }
        ensures failed { OnErr result (Rises (faults self.old) (faults self.new)) }
        ensures count { faults self.old ≤ faults self.new };
}

/// Why a file was not read.
#[derive(Clone, Copy, Debug, PartialEq, Eq)]
pub enum ReadFault {
    /// The shelf failed.
    Read,
    /// There was no memory for the bytes.
    Memory,
}

// How many bytes are read at a time.
const READ_BLOCK: usize = 65_536;

/// The bytes of the file of this name, or the first `limit + 1` of them where it is longer.
pub fn read_whole<F: Shelf>(
    alloc: Global,
    shelf: &mut F,
    name: &str,
    limit: u64,
) -> Result<Vec<u8>, ReadFault>
    requires { Contains (F.names shelf.old) name.now }
    ensures bytes { IfOk result (λ read. IfSome (F.files shelf.old) (λ file.
        IsSomeAnd (file name.now) (λ bytes. read.items ≡ take (limit + 1) bytes))) }
    ensures within { IfOk result (λ read. length read.items ≤ limit + 1) }
    ensures failed { IsErrOf result ReadFault.Read → Rises (F.faults shelf.old) (F.faults shelf.new) }
    ensures names { F.names shelf.new ≡ F.names shelf.old }
    ensures files { F.files shelf.new ≡ F.files shelf.old }
    ensures count { F.faults shelf.old ≤ F.faults shelf.new }
{
    if shelf.choose(name).is_err() {
        return Err(ReadFault::Read);
    }
    let mut bytes = Vec::new(alloc);
    let mut block = [0; READ_BLOCK];
    while bytes.len() as u64 <= limit {
        let more = limit - bytes.len() as u64;
        let want = if more < READ_BLOCK as u64 {
            more as usize + 1
        } else {
            READ_BLOCK
        };
        let Ok(n) = shelf.read(&mut block[..want]) else {
            return Err(ReadFault::Read);
        };
        if n == 0 {
            return Ok(bytes);
        }
        if bytes.extend_from_slice(&block[..n]).is_err() {
            return Err(ReadFault::Memory);
        }
    }
    Ok(bytes)
}
