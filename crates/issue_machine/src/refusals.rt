// The reasons to refuse an order, a change or a cancellation.
ghost use Rattle.std.specs.Prelude.{◌≡◌, Some, MatchResult};
ghost use Rattle.issue_book.specs.Entering.{named};
ghost use Rattle.issue_machine.specs.Answering.{closed, is_quantity};
ghost use Rattle.issue_machine.specs.Replying.{IsAccepted, IsOwn, IsRefusedAnyway, not_own};

use issue_floor::Floor;
use mkt_base::{Caller, Kind, Order, Participant, Phase, Qty, Reason, Spot};

/// The reason that no orders are taken in this phase, if it stands.
pub fn closed(floor: &Floor) -> Option<Reason>
    ensures { result ≡ closed floor.now.state }
{
    match floor.phase() {
        Phase::Idle => Some(Reason::Closed(Phase::Idle)),
        Phase::Collecting | Phase::Trading => None,
    }
}

// Whether a quantity is 1 to 100,000,000 shares and a multiple of the unit.
fn is_quantity(floor: &Floor, qty: u32) -> bool
    ensures { result ≡ is_quantity floor.now.terms qty }
{
    floor.stands();
    1 <= qty && qty <= 100_000_000 && qty % floor.unit() == 0
}

/// The spot of an order or a change of this kind and quantity, or the first reason why the issue does not take it now.
pub fn spot_for(floor: &Floor, kind: Kind, qty: Qty) -> Result<Spot, Reason>
    ensures { MatchResult result (IsAccepted floor.now.terms floor.now.state kind qty) (IsRefusedAnyway floor.now.terms floor.now.state kind qty) }
{
    floor.stands();
    if let Some(reason) = closed(floor) {
        return Err(reason);
    }
    if !is_quantity(floor, qty.0) {
        return Err(Reason::BadQty(qty));
    }
    match (kind, floor.spot_of(kind)) {
        (_, Some(spot)) => Ok(spot),
        (Kind::Limit(price), None) => Err(Reason::BadPrice(price)),
        (Kind::Market, None) => unreachable!(),
    }
}

/// The order of a caller with this own number, or the reason why the participant may not change it or take it out.
pub fn own_order(
    floor: &Floor,
    caller: Caller,
    target: u32,
    participant: Participant,
) -> Result<Order, Reason>
    ensures { MatchResult result (IsOwn caller target participant floor.now.state)
        (λ reason. not_own participant target (named caller target floor.now.state) ≡ Some reason) }
{
    match floor.named(caller, target) {
        None => Err(Reason::UnknownOrder(target)),
        Some(order) if order.participant.0 == participant.0 => Ok(order),
        Some(order) => Err(Reason::NotYours(order.participant)),
    }
}
