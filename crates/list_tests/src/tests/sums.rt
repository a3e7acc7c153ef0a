// Sums of quantities by position.
ghost use Rattle.std.specs.Prelude.{◌≡◌, ◌<◌, ◌≤◌, ◌+◌, length, IfOk};

use depth_index::{DepthFault, DepthIndex, Steps};
use std::alloc::Global;
use std::marker::Brand;
use std::process::Abort;
use std::sync::ledger::{Blank, Ledger};
use std::test::Fail;

// A quantity at two of five positions.
fn read_five<L: Ledger>(rt: &impl Abort, alloc: Global, blank: Blank) -> Result<(), DepthFault>
    requires name { blank.name ≡ L.name }
    requires parts { blank.parts ≡ L.parts }
    requires some { 0 < blank.parts }
{
    let mut steps = Steps::<L>::new(blank);
    let mut index = DepthIndex::make(alloc, 5)?;
    index.add(1, 300);
    index.add(3, 200);
    assert_eq!(rt; index.upto(2, &mut steps), 300);
    assert_eq!(rt; index.find_first(301, &mut steps), Some(3));
    assert_eq!(rt; index.find_first(501, &mut steps), None);
    Ok(())
}

#[test]
fn a_sum_of_five_positions_is_read(rt: HostRuntime) -> Result<(), Fail> {
    read_five::<Brand>(&rt, rt.alloc(), Blank::new(1))?;
    Ok(())
}

// Compares each read with plain sums, over quantities of 0 to 4.
fn compare_all<L: Ledger>(
    rt: &impl Abort,
    alloc: Global,
    blank: Blank,
    size: u32,
) -> Result<(), DepthFault>
    requires name { blank.name ≡ L.name }
    requires parts { blank.parts ≡ L.parts }
    requires some { 0 < blank.parts }
    requires from { 1 ≤ size }
    requires upto { size ≤ 20000 }
{
    let mut steps = Steps::<L>::new(blank);
    let mut index = DepthIndex::make(alloc, size)?;
    for i in 0..size {
        index.add(i, u64::from(i * 7 % 5));
    }
    let mut sum = 0;
    let mut first = 0;
    for i in 0..size {
        let quantity = u64::from(i * 7 % 5);
        if quantity > 0 {
            assert_eq!(rt; index.find_first(sum + 1, &mut steps), Some(i));
            first = i;
        }
        sum += quantity;
        assert_eq!(rt; index.at(i), quantity);
        assert_eq!(rt; index.upto(i, &mut steps), sum);
        assert_eq!(rt; index.find_first(sum, &mut steps), Some(first));
    }
    assert_eq!(rt; index.find_first(sum + 1, &mut steps), None);
    for i in 0..size {
        let quantity = index.at(i);
        index.sub(i, quantity);
    }
    assert_eq!(rt; index.upto(size - 1, &mut steps), 0);
    assert_eq!(rt; index.find_first(1, &mut steps), None);
    Ok(())
}

#[test]
fn reads_are_those_of_plain_sums(rt: HostRuntime) -> Result<(), Fail> {
    compare_all::<Brand>(&rt, rt.alloc(), Blank::new(1), 1)?;
    compare_all::<Brand>(&rt, rt.alloc(), Blank::new(1), 2)?;
    compare_all::<Brand>(&rt, rt.alloc(), Blank::new(1), 5)?;
    compare_all::<Brand>(&rt, rt.alloc(), Blank::new(1), 20_000)?;
    Ok(())
}
