// A pool, whose items contracts see by place.
ghost use Rattle.std.specs.Prelude.{◌≡◌, ℕ};

use order_list::{Placed, Pool};
use std::test::Fail;

#[derive(Clone, Copy, Debug, PartialEq, Eq)]
struct Seat {
    place: u64,
    worth: u8,
}

impl Placed for Seat {
    ghost place = { λ seat. seat.place };

    fn place(&self) -> u64 {
        self.place
    }
}

// An item of this place.
fn seated(place: u64, worth: u8) -> Seat
    ensures { result ≡ record { place = place; worth = worth } }
{
    Seat { place, worth }
}

// Its place, asked as a pool may ask it.
fn place_of<T: Placed>(item: &T) -> u64
    ensures { result ≡ T.place item.now }
{
    item.place()
}

#[test]
fn an_item_is_put_in_written_and_taken_out(rt: HostRuntime) -> Result<(), Fail> {
    let mut pool = Pool::<Seat>::make(rt.alloc());
    assert_eq!(rt; pool.spare(), 0);
    pool.reserve(rt.alloc(), 2)?;
    let room = pool.spare();
    assert!(rt; room >= 2);
    let first = pool.push_back(seated(3, 7));
    let second = pool.push_back(seated(5, 8));
    assert_eq!(rt; pool.spare(), room - 2);
    pool.set(first, seated(3, 9));
    assert_eq!(rt; pool.item(first), seated(3, 9));
    assert_eq!(rt; pool.unlink(first), seated(3, 9));
    // The room of the first serves again, for an item of a later place.
    let third = pool.push_back(seated(6, 1));
    assert_eq!(rt; third, first);
    pool.reserve(rt.alloc(), 9)?;
    assert_eq!(rt; pool.item(second), seated(5, 8));
    assert_eq!(rt; place_of(&pool.item(third)), 6);
    assert!(rt; pool.spare() >= 9);
    Ok(())
}
