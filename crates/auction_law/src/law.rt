// The laws of an auction, which hold of the definitions for every grid and every list of orders.
ghost use Rattle.auction_law.specs.Attempt.{ChosenIsNearest, OneAnswer};
ghost use Rattle.auction_law.specs.Laws.{AttemptIsTheOutcome, MeetingTradesMost, OneRunMeets, SumsGoOneWay, TieNeverDecides, TradesUnlessPressed, TradesWhereSomeMeets};
ghost use Rattle.auction_law.specs.Levels.{LevelsAnswerAlike};

/// Going up the prices, what is bought never rises and what is sold never falls.
pub fn sums_go_one_way()
    ensures { SumsGoOneWay }
{}

/// The prices that meet the three conditions are one run of neighbours: where two prices meet them, so does each price
/// between them.
pub fn one_run_meets()
    ensures { OneRunMeets }
{}

/// No price trades more than one that meets the three conditions.
pub fn meeting_trades_most()
    ensures { MeetingTradesMost }
{}

/// The chosen price is one of the grid that meets the three conditions, and no other that meets them is nearer.
pub fn chosen_is_nearest()
    ensures { ChosenIsNearest }
{}

/// The chosen price lies in a window that holds the reference exactly where some price of the grid that lies in it meets
/// the three conditions.
pub fn trades_where_some_meets()
    ensures { TradesWhereSomeMeets }
{}

/// Where two prices that are equally far from the reference both meet the three conditions, so does the reference, and
/// neither of the two is chosen. So the rule that of the two the lower is nearer never decides.
pub fn tie_never_decides()
    ensures { TieNeverDecides }
{}

/// An attempt trades, is calm, is pressed by buyers or is pressed by sellers, and exactly one of these.
pub fn one_answer()
    ensures { OneAnswer }
{}

/// An attempt trades exactly where the book is not calm and neither side presses at its end of the window.
pub fn trades_unless_pressed()
    ensures { TradesUnlessPressed }
{}

/// The outcome of an attempt is one function of the grid, the orders, the reference and the window.
pub fn attempt_is_the_outcome()
    ensures { AttemptIsTheOutcome }
{}

/// Where two lists of orders have the same left at each level, an attempt over one answers what it answers over the
/// other, with the same certificate. So the orders of a level may stand together as one.
pub fn levels_answer_alike()
    ensures { LevelsAnswerAlike }
{}
