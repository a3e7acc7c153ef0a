// The laws of a book's sides, which hold of the definitions for every list of orders.
ghost use Rattle.book_law.specs.Laws.{FrontsAreTraded, NoneBetterLeft, SidesAddUp, StandsOnce, TradesKeepPriority};

/// Trades leave a side in its priority.
pub fn trades_keep_priority()
    ensures { TradesKeepPriority }
{}

/// An order stands once in the priority of its side, and not in that of the other.
pub fn stands_once()
    ensures { StandsOnce }
{}

/// What is added up over a side, level by level, is what is added up over the book's orders of the side.
pub fn sides_add_up()
    ensures { SidesAddUp }
{}

/// Where as many shares were traded from both fronts, each side is left without its front of so many shares.
pub fn fronts_are_traded()
    ensures { FrontsAreTraded }
{}

/// After an auction at a price nothing better than the price is left on either side, and on one side nothing at the price.
pub fn none_better_left()
    ensures { NoneBetterLeft }
{}
