// The laws of an order's arrival, which hold of the definition for every book, every table of ranges and every last price.
ghost use Rattle.zaraba.specs.Laws.{BoughtIsSold, DoneStaysCalm, LastIsNear, NoneFillsMore, SequenceIsBeyond, StoppedHasLeft, TradesStand};

/// No order trades more than it has left, and an order that arrives has left what it does not trade.
pub fn none_fills_more()
    ensures { NoneFillsMore }
{}

/// What an arriving order trades is what the other side of the book loses; its own side stays as it is.
pub fn bought_is_sold()
    ensures { BoughtIsSold }
{}

/// Each trade has shares and a price of the grid; whole trading units stay whole, in the trades and in the book.
pub fn trades_stand()
    ensures { TradesStand }
{}

/// The last price afterwards is no farther than twice the range from the one at the order's arrival.
pub fn last_is_near()
    ensures { LastIsNear }
{}

/// An order that stops at a gap or a sequence has something left.
pub fn stopped_has_left()
    ensures { StoppedHasLeft }
{}

/// Where an order stops at a sequence, some price of the grid is too far from the one at its arrival, to its own way.
pub fn sequence_is_beyond()
    ensures { SequenceIsBeyond }
{}

/// An order that is done leaves a calm book calm: no market order is left, and no limit buy at or above a limit sell.
pub fn done_stays_calm()
    ensures { DoneStaysCalm }
{}
