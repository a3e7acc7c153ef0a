// Laws of priority and of what orders fill, over the definitions alone.
ghost use Rattle.mkt_base.specs.Laws.{LevelsInPriority, PairedAlike, TakenAddsUp, TradesInTurn};

/// The levels of a side, the best first, are its priority order.
pub fn levels_in_priority()
    ensures { LevelsInPriority }
{}

/// What is taken from the front of a list of fills and what is left of it add up.
pub fn taken_adds_up()
    ensures { TakenAddsUp }
{}

/// Both sides of a pairing trade the same quantity, each from its front on.
pub fn paired_alike()
    ensures { PairedAlike }
{}

/// The book after trades in turn is the book after all of them.
pub fn trades_in_turn()
    ensures { TradesInTurn }
{}
