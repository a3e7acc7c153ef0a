// What a member has read of the rounds so far.
ghost use Rattle.std.specs.Prelude.{◌≡◌, true, [], IfOk};

use crate::{Packed, Words};
use std::alloc::{AllocError, Global};
use std::marker::{Model, PhantomData};
use std::sync::Wait;
use std::thread::yield_now;

/// What one member has read of the rounds so far.
#[derive(Drop)]
pub struct Gathered<V: Packed> {
    pub(crate) log: Vec<Words>,
    value: PhantomData<V>,
}

impl<V: Packed> Model for Gathered<V> {
    ghost use Rattle.std.specs.Prelude.{map, vec_capacity};
    ghost use Rattle.all_gather.specs.Rounds.{Readings};

    ghost Value = { Readings V };

    ghost view = { λ g. record { values = map V.unpacked g.log.items; room = vec_capacity g.log } };
}

impl<V: Packed> Gathered<V> {
    /// Nothing is read, and there is no room.
    pub fn new(alloc: Global) -> Gathered<V>
        ensures { result.values ≡ [] }
    {
        Gathered {
            log: Vec::new(alloc),
            value: PhantomData,
        }
    }

    /// Nothing is read yet, and there is room for so many values.
    pub fn make(alloc: Global, room: usize) -> Result<Gathered<V>, AllocError>
        ensures { IfOk result (λ g. (g.values ≡ []) × (g.room ≡ room)) }
    {
        let log = Vec::with_capacity(alloc, room)?;
        Ok(Gathered {
            log,
            value: PhantomData,
        })
    }
}

fn is_same(a: &Words, b: &Words) -> bool
    ensures { result ≡ true → a.now ≡ b.now }
{
    a.first == b.first && a.second == b.second && a.third == b.third
}

fn are_same(a: &[Words], b: &[Words]) -> bool
    ensures { result ≡ true → a.now ≡ b.now }
{
    if a.len() != b.len() {
        return false;
    }
    for (place, words) in a.iter().enumerate() {
        if !is_same(words, &b[place]) {
            return false;
        }
    }
    true
}

// Never returns.
fn wait_for_good<R: Wait>(rt: &R)
    ensures { ⊥ }
{
    for _ in rt.forever() {
        yield_now();
    }
    unreachable!()
}

/// Two members have read the same values. Plain atomic words carry no proof, so what the two have read is compared, word by word. It is the same
/// where both have read the same cells in rounds in which each cell was written by one member, once; where it is not, this waits for good.
pub fn agree<R: Wait, V: Packed>(rt: &R, a: &Gathered<V>, b: &Gathered<V>)
    ensures { a.now.values ≡ b.now.values }
{
    if !are_same(a.log.as_slice(), b.log.as_slice()) {
        wait_for_good(rt);
    }
}
