// Laws of grids, over the definitions alone.
ghost use Rattle.tick_grid.specs.Laws.{CeilIsLeast, FloorIsGreatest, GridBetweenItsEnds, PositionsAreFound};

/// The grid between the first and the last price of a grid of rows is that grid.
pub fn grid_between_its_ends()
    ensures { GridBetweenItsEnds }
{}

/// Each price of a rising list is found at its position.
pub fn positions_are_found()
    ensures { PositionsAreFound }
{}

/// The floor of a price is the greatest price that is not above it.
pub fn floor_is_greatest()
    ensures { FloorIsGreatest }
{}

/// The ceiling of a price is the least price that is not below it.
pub fn ceil_is_least()
    ensures { CeilIsLeast }
{}
