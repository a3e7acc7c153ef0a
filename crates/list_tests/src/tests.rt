mod lists;
mod pools;
mod sums;
