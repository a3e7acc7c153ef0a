// What a book begins with.
ghost use Rattle.std.specs.Prelude.{◌≡◌, IfOk};

use crate::IssueFault;
use mkt_base::{Moment, Rows};
use std::alloc::Global;

// A list of its own with these rows.
pub(crate) fn copied<T: Copy + Drop>(alloc: Global, rows: &[T]) -> Result<Rows<T>, IssueFault>
    ensures { IfOk result (λ list. list ≡ rows.now) }
{
    let mut items = Vec::with_capacity(alloc, rows.len()).map_err(|_| IssueFault::Memory)?;
    items
        .extend_from_slice(rows)
        .map_err(|_| IssueFault::Memory)?;
    Ok(Rows::new(items))
}

// The first moment of the day.
pub(crate) fn midnight() -> Moment
    ensures { result ≡ 0 }
{
    let Some(first) = Moment::new(0) else {
        unreachable!()
    };
    first
}
