// What a pool keeps under a key.
ghost use Rattle.std.specs.Prelude.{◌≡◌, ℕ};

use std::alloc::AllocError;

/// An item with a place, by which contracts see the items of a pool in order.
pub trait Placed {
    /// Its place, which code need not ask for.
    ghost place: { Self → ℕ };

    /// Its place.
    fn place(&self) -> u64
        ensures { result ≡ place self.now };
}

// A slab is copied entry by entry where room is made, which wants more of an entry than that it is `Copy`.
#[derive(Drop)]
pub(crate) struct Kept<T> {
    pub(crate) item: T,
}

impl<T: Copy> Clone for Kept<T> {
    ghost is_clone = { λ kept copy. copy ≡ kept };

    fn clone(&self) -> Result<Self, AllocError> {
        Ok(Kept { item: self.item })
    }
}
