// What may be wrong with a rules file.
ghost use Rattle.std.specs.Prelude.{◌≡◌, IfErr, IfOk};
ghost use Rattle.rules_file.specs.Faults.{IsTold, fault_number};

use mkt_base::Name;
use std::alloc::Global;

/// Why a rules file is refused. A name is a key, or the code of an issue, or a name of a list.
#[derive(Debug, Drop)]
pub enum RulesFault {
    /// It is no TOML document.
    NotToml,
    /// The key is absent, or an empty list.
    MissingKey(Name),
    /// What stands at the key is not of its form, or out of range.
    BadNumber(Name),
    /// A row of the table, counted from 1, is out of order.
    RowsOutOfOrder(Name, u32),
    /// The base of the issue is not on tick.
    OffTick(Name),
    /// The grid of the issue has so many prices, more than 20,000.
    GridTooLarge(Name, u64),
    /// The times of a session, counted from 1, do not rise.
    BadPhases(u32),
    /// A round, counted from 1, is `all` and not the last, or the last and not `all`.
    BadRounds(u32),
    /// The list has so many rows, more than its limit; or the file has too many bytes.
    TooMany(Name, u64),
    /// The name stands twice in its list.
    Twice(Name),
    /// There is no memory for what is read.
    Memory,
}

impl RulesFault {
    /// The number by which a fault is told, 1 to 10; none for want of memory.
    pub fn number(&self) -> Option<u32>
        ensures { result ≡ fault_number self.now }
    {
        match self {
            RulesFault::NotToml => Some(1),
            RulesFault::MissingKey(_) => Some(2),
            RulesFault::BadNumber(_) => Some(3),
            RulesFault::RowsOutOfOrder(_, _) => Some(4),
            RulesFault::OffTick(_) => Some(5),
            RulesFault::GridTooLarge(_, _) => Some(6),
            RulesFault::BadPhases(_) => Some(7),
            RulesFault::BadRounds(_) => Some(8),
            RulesFault::TooMany(_, _) => Some(9),
            RulesFault::Twice(_) => Some(10),
            RulesFault::Memory => None,
        }
    }
}

// A key as a name.
fn named(alloc: Global, key: &str) -> Result<Name, RulesFault>
    ensures name { IfOk result (λ name. name ≡ key.now) }
    ensures memory { IfErr result (λ fault. fault ≡ RulesFault.Memory) }
{
    match String::from_str(alloc, key) {
        Ok(text) => Ok(Name::new(text)),
        Err(_) => Err(RulesFault::Memory),
    }
}

pub(crate) fn missing_key(alloc: Global, key: &str) -> RulesFault
    ensures { IsTold (RulesFault.MissingKey key.now) result }
{
    match named(alloc, key) {
        Ok(name) => RulesFault::MissingKey(name),
        Err(fault) => fault,
    }
}

pub(crate) fn bad_number(alloc: Global, key: &str) -> RulesFault
    ensures { IsTold (RulesFault.BadNumber key.now) result }
{
    match named(alloc, key) {
        Ok(name) => RulesFault::BadNumber(name),
        Err(fault) => fault,
    }
}

pub(crate) fn out_of_order(alloc: Global, key: &str, row: u32) -> RulesFault
    ensures { IsTold (RulesFault.RowsOutOfOrder key.now row) result }
{
    match named(alloc, key) {
        Ok(name) => RulesFault::RowsOutOfOrder(name, row),
        Err(fault) => fault,
    }
}

pub(crate) fn too_many(alloc: Global, key: &str, n: u64) -> RulesFault
    ensures { IsTold (RulesFault.TooMany key.now n) result }
{
    match named(alloc, key) {
        Ok(name) => RulesFault::TooMany(name, n),
        Err(fault) => fault,
    }
}

pub(crate) fn twice(alloc: Global, name: &str) -> RulesFault
    ensures { IsTold (RulesFault.Twice name.now) result }
{
    match named(alloc, name) {
        Ok(name) => RulesFault::Twice(name),
        Err(fault) => fault,
    }
}
