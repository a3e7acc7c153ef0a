// Lists of items, by their links.
ghost use Rattle.std.specs.Prelude.{◌≡◌, ℕ, ◌<◌, ◌≤◌, length};
ghost use Rattle.order_list.specs.Lists.{Lists};

use order_list::OrderList;
use std::test::Fail;

// The items of a list, in order, as digits of one number.
fn digits(lists: &OrderList<u8>, list: u32) -> u64
    requires { list < length lists.now.lists }
{
    let mut number = 0u64;
    let mut place = lists.front(list);
    for _step in 0..10 {
        let Some(link) = place else {
            break;
        };
        number = number
            .wrapping_mul(10)
            .wrapping_add(u64::from(lists.item(link)));
        place = lists.next(link);
    }
    number
}

#[test]
fn an_item_is_put_in_and_taken_out(rt: HostRuntime) -> Result<(), Fail> {
    let mut lists = OrderList::<u8>::make(rt.alloc(), 2)?;
    assert_eq!(rt; lists.spare(), 0);
    lists.reserve(rt.alloc(), 2)?;
    assert!(rt; lists.spare() >= 2);
    let first = lists.push_back(0, 7);
    let second = lists.push_back(0, 8);
    let room = lists.spare();
    assert_eq!(rt; lists.unlink(first), 7);
    assert_eq!(rt; lists.spare(), room + 1);
    assert_eq!(rt; lists.front(0), Some(second));
    assert_eq!(rt; lists.item(second), 8);
    assert_eq!(rt; lists.front(1), None);
    Ok(())
}

#[test]
fn an_item_is_written_in_its_place_and_stays_where_room_grows(rt: HostRuntime) -> Result<(), Fail> {
    let mut lists = OrderList::<u8>::make(rt.alloc(), 1)?;
    lists.reserve(rt.alloc(), 1)?;
    let first = lists.push_back(0, 7);
    *lists.item_mut(first) = 9;
    lists.reserve(rt.alloc(), 3)?;
    lists.push_back(0, 8);
    assert_eq!(rt; digits(&lists, 0), 98);
    assert!(rt; lists.spare() >= 2);
    Ok(())
}

#[test]
fn items_are_put_before_others_and_taken_from_anywhere(rt: HostRuntime) -> Result<(), Fail> {
    let mut lists = OrderList::<u8>::make(rt.alloc(), 2)?;
    lists.reserve(rt.alloc(), 5)?;
    let room = lists.spare();
    let one = lists.push_back(1, 1);
    let two = lists.push_back(1, 2);
    let three = lists.push_back(1, 3);
    assert_eq!(rt; digits(&lists, 1), 123);
    let nine = lists.insert_before(one, 9);
    let eight = lists.insert_before(three, 8);
    assert_eq!(rt; digits(&lists, 1), 91283);
    assert_eq!(rt; lists.item(nine), 9);
    assert_eq!(rt; lists.item(eight), 8);
    lists.set(nine, 5);
    assert_eq!(rt; digits(&lists, 1), 51283);
    assert_eq!(rt; lists.unlink(two), 2);
    assert_eq!(rt; digits(&lists, 1), 5183);
    assert_eq!(rt; digits(&lists, 0), 0);
    for _step in 0..4 {
        if let Some(first) = lists.front(1) {
            lists.unlink(first);
        }
    }
    assert_eq!(rt; lists.front(1), None);
    assert_eq!(rt; lists.spare(), room);
    Ok(())
}
