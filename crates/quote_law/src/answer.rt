// What the answer of an attempt makes of a quote.
ghost use Rattle.std.specs.Prelude.{◌≡◌, Some};
ghost use Rattle.quote_law.specs.Quotes.{after_event, answered, at_due};

use mkt_base::{Outcome, Quote};

// What becomes of a quote: `own` where its own side presses, `other` where the other side does, else it ends.
fn answered(quote: &Quote, own: Quote, other: Quote, outcome: &Outcome) -> Option<Quote>
    ensures { result ≡ answered quote.now (Some own) (Some other) outcome.now }
{
    match outcome {
        Outcome::Traded { .. } | Outcome::Calm { .. } => None,
        Outcome::Pressed { side, .. } => Some(if *side == quote.side { own } else { other }),
    }
}

/// The quote that is shown after the attempt that follows an event: it ends where the attempt trades or the book is calm, it
/// stays where its own side presses, and where the other side presses `fresh`, the special quote of that side, takes its place.
pub fn after_event(quote: Quote, outcome: Outcome, fresh: Quote) -> Option<Quote>
    ensures { result ≡ after_event quote outcome fresh }
{
    let shown = quote;
    answered(&shown, quote, fresh, &outcome)
}

/// The quote that is shown after the attempt at its due moment: as after an event, but where its own side presses `moved`, the
/// special quote one renewal further, takes its place.
pub fn at_due(quote: Quote, outcome: Outcome, moved: Quote, fresh: Quote) -> Option<Quote>
    ensures { result ≡ at_due quote outcome moved fresh }
{
    answered(&quote, moved, fresh, &outcome)
}
