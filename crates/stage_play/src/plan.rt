// Which stages make a block, and the cells for their notes.
ghost use Rattle.std.specs.Prelude.{◌≡◌, ◌+◌, ◌*◌, ◌<◌, ◌≤◌, true, length};

use crate::Part;
use all_gather::{Cell, make_cells};
use std::alloc::{AllocError, Global};

/// How many notes of a block there is room for.
const NOTES: usize = 4_096;

// How many notes all gateways make in a stage. None where that is no number, and where there is only one gateway.
pub(crate) fn width_of(gateways: usize, issues: usize) -> usize
    ensures { 0 < result → result ≡ gateways * issues }
{
    if gateways < 2 {
        return 0;
    }
    gateways.checked_mul(issues).unwrap_or(0)
}

// How many stages there are cells for, and at most so many.
fn stages_within(cells: usize, width: usize, stages: u32) -> u32
    ensures room { result * width ≤ cells }
    ensures some { 0 < result → 0 < width }
    ensures most { result ≤ stages }
{
    let most = cells.checked_div(width).unwrap_or(0);
    most.min(stages as usize) as u32
}

// The cells of blocks. None where a block would be of one stage, or where there is no memory.
pub(crate) fn cells_for(alloc: Global, width: usize, stages: u32) -> Vec<Cell> {
    let most = stages_within(NOTES, width, stages);
    if most < 2 {
        return Vec::new(alloc);
    }
    match make_cells(alloc, most as usize * width) {
        Ok(cells) => cells,
        Err(AllocError) => Vec::new(alloc),
    }
}

// More than one gateway has lines in the stage.
pub(crate) fn is_shared<D>(parts: &[Part<D>], stage: u32) -> bool
    ensures { result ≡ true → 0 < length parts.now }
{
    parts
        .iter()
        .filter(|part| part.gateway.is_next_in(stage))
        .count()
        > 1
}

// How many stages a block from this one on has: none where only one gateway has lines in the stage.
pub(crate) fn block_from<D>(
    parts: &[Part<D>],
    stage: u32,
    stages: u32,
    room: usize,
    width: usize,
) -> u32
    requires { stage ≤ stages }
    ensures room { result * width ≤ room }
    ensures some { 0 < result → 0 < width }
    ensures most { stage + result ≤ stages }
{
    if !is_shared(parts, stage) {
        return 0;
    }
    stages_within(room, width, stages - stage)
}
