// Orders, changes and cancellations.
ghost use Rattle.std.specs.Prelude.{◌≡◌, ◌%◌, ◌<◌, ◌≤◌, IsSome, Some, length};
ghost use Rattle.mkt_base.specs.Priority.{is_same_spot};
ghost use Rattle.book_law.specs.BookView.{IsSpotBelow};
ghost use Rattle.issue_book.specs.Entering.{enter, lower, named, take_out};
ghost use Rattle.issue_book.specs.Filled.{left_of};
ghost use Rattle.issue_book.specs.IssueView.{MayEnter, in_state};
ghost use Rattle.issue_book.specs.Quoting.{try_quote};
ghost use Rattle.issue_book.specs.State.{stay, ◌then◌};
ghost use Rattle.issue_machine.specs.Answering.{change_to, changed, take_cancel, take_change, take_order};
ghost use Rattle.issue_machine.specs.Replying.{WasLeft, WasMoved, WasReplied};
ghost use Rattle.issue_machine.specs.Standing.{MayTake};

use crate::refusals::{closed, own_order, spot_for};
use issue_floor::Floor;
use mkt_base::{Caller, Entry, Kind, Order, Participant, Qty, Reply, Side, Spot, Watch};

// What the order of a caller with this own number has left; nothing where it is not in the book.
fn left_of(floor: &Floor, caller: Caller, own: u32) -> u64
    ensures { result ≡ left_of caller own floor.now.state }
{
    match floor.named(caller, own) {
        Some(order) => order.left,
        None => 0,
    }
}

// Whether two orders stand at one limit, or both at the market.
fn is_same_spot(one: Spot, other: Spot) -> bool
    ensures { result ≡ is_same_spot one other }
{
    match (one, other) {
        (Spot::Market, Spot::Market) => true,
        (Spot::At(i), Spot::At(j)) => i == j,
        _ => false,
    }
}

// Lets an order enter, tries the quote, and answers what the order has left.
fn enter<W: Watch>(floor: &mut Floor, order: Order, watch: &mut W) -> u64
    requires { MayEnter floor.old order }
    ensures moved { WasMoved W.took (enter floor.old.terms order floor.old.state then try_quote floor.old.terms) floor.old floor.new watch.old watch.new }
    ensures left { WasLeft order (enter floor.old.terms order floor.old.state then try_quote floor.old.terms) result }
{
    let left = floor.enter(order, watch);
    let quoted = floor.quote().is_some();
    floor.try_quote(watch);
    // (where no quote is shown nothing was tried, and the order has what it had)
    if quoted {
        left_of(floor, order.caller, order.own)
    } else {
        left
    }
}

/// Does an order event.
pub fn take_order<W: Watch>(
    floor: &mut Floor,
    entry: &Entry,
    participant: Participant,
    side: Side,
    kind: Kind,
    qty: Qty,
    watch: &mut W,
) -> Reply
    requires entry { MayTake floor.old entry.now }
    requires participant { participant.0 < 64 }
    ensures { WasReplied W.took (take_order floor.old.terms entry.now participant side kind qty floor.old.state) floor.old floor.new watch.old watch.new result }
{
    let spot = match spot_for(floor, kind, qty) {
        Ok(spot) => spot,
        Err(reason) => return Reply::Refused(reason),
    };
    let order = Order {
        place: entry.place,
        caller: entry.caller,
        own: entry.own,
        participant,
        side,
        spot,
        left: u64::from(qty.0),
    };
    let left = enter(floor, order, watch);
    Reply::Accepted {
        place: entry.place,
        filled: order.left - left,
        left,
    }
}

// Lowers what an order has left, and tries the quote.
fn lower<W: Watch>(floor: &mut Floor, order: &Order, qty: u64, watch: &mut W) -> Reply
    requires named { named order.now.caller order.now.own floor.old.state ≡ Some order.now }
    requires less { qty < order.now.left }
    requires some { 1 ≤ qty }
    requires units { qty % floor.old.terms.unit ≡ 0 }
    ensures { WasReplied W.took (changed order.now (stay (lower order.now.caller order.now.own qty floor.old.state) then try_quote floor.old.terms)) floor.old floor.new watch.old watch.new result }
{
    floor.stands();
    floor.lower(order.caller, order.own, qty);
    floor.try_quote(watch);
    let left = left_of(floor, order.caller, order.own);
    Reply::Changed {
        place: order.place,
        filled: qty - left,
        left,
    }
}

// Takes an order out and lets it enter again, as it is handed, under its own number.
fn enter_again<W: Watch>(floor: &mut Floor, anew: Order, watch: &mut W) -> Reply
    requires named { IsSome (named anew.caller anew.own floor.old.state) }
    requires enters { MayEnter (in_state (take_out anew.caller anew.own floor.old.state) floor.old) anew }
    ensures { WasReplied W.took (changed anew (enter floor.old.terms anew (take_out anew.caller anew.own floor.old.state) then try_quote floor.old.terms)) floor.old floor.new watch.old watch.new result }
{
    floor.take_out(anew.caller, anew.own);
    let left = enter(floor, anew, watch);
    Reply::Changed {
        place: anew.place,
        filled: anew.left - left,
        left,
    }
}

// Changes an order of the book: a lower quantity at the same spot keeps its place.
fn change<W: Watch>(
    floor: &mut Floor,
    entry: &Entry,
    order: &Order,
    spot: Spot,
    qty: u64,
    watch: &mut W,
) -> Reply
    requires entry { MayTake floor.old entry.now }
    requires named { named order.now.caller order.now.own floor.old.state ≡ Some order.now }
    requires spot { IsSpotBelow (length floor.old.terms.grid) spot }
    requires some { 1 ≤ qty }
    requires limit { qty ≤ 100000000 }
    requires units { qty % floor.old.terms.unit ≡ 0 }
    ensures { WasReplied W.took (change_to floor.old.terms entry.now spot qty order.now floor.old.state) floor.old floor.new watch.old watch.new result }
{
    floor.stands();
    if is_same_spot(spot, order.spot) && qty < order.left {
        return lower(floor, order, qty, watch);
    }
    let anew = Order {
        place: entry.place,
        spot,
        left: qty,
        ..*order
    };
    enter_again(floor, anew, watch)
}

/// Does a change event.
pub fn take_change<W: Watch>(
    floor: &mut Floor,
    entry: &Entry,
    participant: Participant,
    target: u32,
    kind: Kind,
    qty: Qty,
    watch: &mut W,
) -> Reply
    requires { MayTake floor.old entry.now }
    ensures { WasReplied W.took (take_change floor.old.terms entry.now participant target kind qty floor.old.state) floor.old floor.new watch.old watch.new result }
{
    let spot = match spot_for(floor, kind, qty) {
        Ok(spot) => spot,
        Err(reason) => return Reply::Refused(reason),
    };
    let order = match own_order(floor, entry.caller, target, participant) {
        Ok(order) => order,
        Err(reason) => return Reply::Refused(reason),
    };
    change(floor, entry, &order, spot, u64::from(qty.0), watch)
}

// Takes an order out, and tries the quote.
fn take_out<W: Watch>(floor: &mut Floor, order: &Order, watch: &mut W)
    requires { named order.now.caller order.now.own floor.old.state ≡ Some order.now }
    ensures { WasMoved W.took (stay (take_out order.now.caller order.now.own floor.old.state) then try_quote floor.old.terms) floor.old floor.new watch.old watch.new }
{
    floor.take_out(order.caller, order.own);
    floor.try_quote(watch);
}

/// Does a cancel event.
pub fn take_cancel<W: Watch>(
    floor: &mut Floor,
    entry: &Entry,
    participant: Participant,
    target: u32,
    watch: &mut W,
) -> Reply
    ensures { WasReplied W.took (take_cancel floor.old.terms entry.now participant target floor.old.state) floor.old floor.new watch.old watch.new result }
{
    if let Some(reason) = closed(floor) {
        return Reply::Refused(reason);
    }
    let order = match own_order(floor, entry.caller, target, participant) {
        Ok(order) => order,
        Err(reason) => return Reply::Refused(reason),
    };
    take_out(floor, &order, watch);
    Reply::Cancelled { left: order.left }
}
