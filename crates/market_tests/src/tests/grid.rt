// Grids of prices on tick, and ranges.
ghost use Rattle.tick_grid.specs.Rows.{AreBandRows, AreTickRows};

use mkt_base::Price;
use std::test::Fail;
use tick_grid::{BandRow, Grid, GridFault, TickRow, band, down, up};

fn ticks() -> [TickRow; 2]
    ensures { AreTickRows result }
{
    [
        TickRow {
            upto: 30_000,
            tick: 10,
        },
        TickRow {
            upto: 1_000_000_000,
            tick: 50,
        },
    ]
}

fn ranges() -> [BandRow; 2]
    ensures { AreBandRows result }
{
    [
        BandRow {
            below: 20_000,
            value: 400,
        },
        BandRow {
            below: 1_000_000_001,
            value: 500,
        },
    ]
}

// What is built between two prices: how many there are, the first and the last; or why there is no grid.
fn built(rt: &HostRuntime, low: u32, high: u32) -> Result<(u32, u32, u32), GridFault> {
    if low == 0 || high > 1_000_000_000 {
        return Err(GridFault::NoPrice);
    }
    let grid = Grid::build(rt.alloc(), &ticks(), Price(low), Price(high))?;
    let size = grid.size();
    Ok((size, grid.price(0).0, grid.price(size - 1).0))
}

#[test]
fn a_grid_is_built_between_two_prices(rt: HostRuntime) {
    for (low, high, want) in [
        (29_990, 30_100, Ok((4, 29_990, 30_100))),
        (30_001, 30_049, Err(GridFault::NoPrice)),
        (20_000, 19_990, Err(GridFault::NoPrice)),
        (10, 210_000, Ok((6_600, 10, 210_000))),
        (10, 1_000_000, Err(GridFault::GridTooLarge(22_400))),
        (1, 1_000_000_000, Err(GridFault::GridTooLarge(20_002_400))),
    ] {
        assert_eq!(rt; built(&rt, low, high), want, "at {low}");
    }
}

#[test]
fn a_price_is_found_on_a_grid(rt: HostRuntime) -> Result<(), Fail> {
    let grid = Grid::build(rt.alloc(), &ticks(), Price(29_990), Price(30_100))?;
    let found = |p: u32| (
        grid.index(Price(p)),
        grid.floor(Price(p)),
        grid.ceil(Price(p)),
    );
    for (p, want) in [
        (29_989, (None, None, Some(0))),
        (29_990, (Some(0), Some(0), Some(0))),
        (30_049, (None, Some(1), Some(2))),
        (30_100, (Some(3), Some(3), Some(3))),
        (30_101, (None, Some(3), None)),
    ] {
        assert_eq!(rt; found(p), want, "at {p}");
    }
    Ok(())
}

// Where a position of a grid goes up and down; none behind its end.
fn renewed(grid: &Grid, i: u32) -> Option<(u32, u32)> {
    if i >= grid.size() {
        return None;
    }
    Some((up(grid, &ranges(), i), down(grid, &ranges(), i)))
}

#[test]
fn a_position_goes_up_and_down_by_its_range(rt: HostRuntime) -> Result<(), Fail> {
    let grid = Grid::build(rt.alloc(), &ticks(), Price(15_000), Price(25_000))?;
    for (i, want) in [
        (0, Some((40, 0))),
        (3, Some((43, 0))),
        (499, Some((539, 459))),
        (500, Some((550, 450))),
        (990, Some((1_000, 940))),
        (1_000, Some((1_000, 950))),
        (1_001, None),
    ] {
        assert_eq!(rt; renewed(&grid, i), want, "at {i}");
    }
    assert_eq!(rt; band(&ranges(), Price(19_999)), 400);
    assert_eq!(rt; band(&ranges(), Price(1_000_000_000)), 500);
    Ok(())
}
