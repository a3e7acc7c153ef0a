// The laws of the fills of an auction and of an allotted close, which hold of the definitions for every book.
ghost use Rattle.itayose.specs.Laws.{CalmAfterwards, CloseTradesFairly, NoneTradesMore, SidesLoseTrades, TradesAreWhole, VolumeIsTraded};

/// What is bought in an auction by time is what is sold, and it is the volume at its price.
pub fn volume_is_traded()
    ensures { VolumeIsTraded }
{}

/// No order trades more in an auction than it has left, and nothing trades at a place where no order stands.
pub fn none_trades_more()
    ensures { NoneTradesMore }
{}

/// Each side loses in an auction just what is traded.
pub fn sides_lose_trades()
    ensures { SidesLoseTrades }
{}

/// Each trade of an auction is at its price and of whole trading units.
pub fn trades_are_whole()
    ensures { TradesAreWhole }
{}

/// The same three of an allotted close.
pub fn close_trades_fairly()
    ensures { CloseTradesFairly }
{}

/// After an auction's fills by time no market order is left, and no limit buy is at or above a limit sell.
pub fn calm_afterwards()
    ensures { CalmAfterwards }
{}
