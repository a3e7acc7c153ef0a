// Entries as records, and back.
ghost use Rattle.std.specs.Prelude.{◌≡◌, Some, IfOk, IfErr, OnErr};
ghost use Rattle.mkt_base.specs.declared.event.Entry.{Entry};
ghost use Rattle.record_codec.specs.Check.{first_wrong};
ghost use Rattle.record_codec.specs.Entry.{IsEntry, Spells, spelling};

use crate::check::first_wrong;
use crate::event::{entry_of, fields_of};
use crate::row::{read_row, write_row};
use mkt_base::Entry;
use thiserror::Error;

/// The first byte of a record, which tells its form.
pub const FORM: u8 = 1;

/// The bytes are no spelling of an entry at the place that was asked for: the offset at which the first wrong field
/// begins, 0 to 47.
#[derive(Clone, Copy, Debug, PartialEq, Eq, Error)]
#[error("the record is wrong at byte {0}")]
pub struct BadRecord(pub u8);

/// The spelling of an entry, at its place.
#[inline(always)]
pub fn encode(entry: &Entry) -> [u8; 48]
    ensures bytes { result ≡ spelling entry.now }
    ensures numbers { IsEntry entry.now }
{
    write_row(fields_of(FORM, entry))
}

/// The entry of which the bytes are the spelling at this place.
pub fn decode(rec: &[u8; 48], place: u64) -> Result<Entry, BadRecord>
    ensures spelled { IfOk result (Spells rec.now place) }
    ensures found { (e : Entry) → Spells rec.now place e → result ≡ Ok e }
    ensures none { OnErr result ((e : Entry) → Spells rec.now place e → ⊥) }
    ensures first { IfErr result (λ bad. first_wrong 1 place rec.now ≡ Some bad.0) }
{
    let row = read_row(rec);
    match first_wrong(FORM, place, rec, row) {
        Some(offset) => Err(BadRecord(offset)),
        None => Ok(entry_of(row)),
    }
}
