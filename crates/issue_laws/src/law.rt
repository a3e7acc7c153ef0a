// The laws of an issue's steps, for every journal that its rules allow.
ghost use Rattle.issue_laws.specs.Laws.{BookStands, BoughtIsSold, CalmInTrading, EachLosesItsTrades, NoTradeOffTheGrid};
ghost use Rattle.issue_laws.specs.Lower.{LowerLaws};

/// The places of an issue's orders rise and are those of its entries, each order has something left and stands on the grid,
/// and the last price is one of the grid.
pub fn book_stands()
    ensures { BookStands }
{
    lower_laws();
}

/// While an issue trades and no quote is shown, no market order is in its book, and no limit buy is at or above a limit sell.
pub fn calm_in_trading()
    ensures { CalmInTrading }
{
    lower_laws();
}

/// Each trade has a price of the issue's grid, so none is beyond the daily limits, which are the grid's ends.
pub fn no_trade_off_the_grid()
    ensures { NoTradeOffTheGrid }
{
    lower_laws();
}

/// What an entry trades is what each side loses by it: what the buyers bought, the sellers sold.
pub fn bought_is_sold()
    ensures { BoughtIsSold }
{
    lower_laws();
}

/// Each order loses what it trades, and no more than it has; where no order stands nothing is traded.
pub fn each_loses_its_trades()
    ensures { EachLosesItsTrades }
{
    lower_laws();
}

// The laws of auctions, arrivals and allotments on which those of an issue rest.
fn lower_laws()
    ensures { LowerLaws }
{
    itayose::calm_afterwards();
    zaraba::done_stays_calm();
    zaraba::trades_stand();
    zaraba::last_is_near();
    zaraba::bought_is_sold();
    zaraba::none_fills_more();
    allotment::demands_in_order();
}
