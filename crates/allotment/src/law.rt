// The laws of an allotment, over its definition alone.
ghost use Rattle.allotment.specs.Laws.{AcceptedRoundsServe, DemandsInOrder, NoneGetsMore, SharesAddUp, SharesInUnits};

/// Rounds as a rules file is accepted with them serve an allotment.
pub fn accepted_rounds_serve()
    ensures { AcceptedRoundsServe }
{}

/// Nobody is given more than was asked for.
pub fn none_gets_more()
    ensures { NoneGetsMore }
{}

/// Where the last round gives all that is lacking, and no more is there than was asked for, the shares add up to the total.
pub fn shares_add_up()
    ensures { SharesAddUp }
{}

/// Where the total and all that was asked for are in trading units, each share is.
pub fn shares_in_units()
    ensures { SharesInUnits }
{}

/// The demands afterwards are those before, each once, with their shares, and where their places differ they stand in order.
pub fn demands_in_order()
    ensures { DemandsInOrder }
{}
