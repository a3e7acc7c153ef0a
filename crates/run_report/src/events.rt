// The words of events and of replies.
ghost use Rattle.std.specs.Prelude.{◌≡◌, [], ◌∷◌};
ghost use Rattle.std.specs.Fmt.{decimal};
ghost use Rattle.mkt_base.specs.ReportWords.{event_words, kind_word, reason_number, reason_word, reply_words};
ghost use Rattle.mkt_io.specs.Printed.{PrintsWords};
ghost use Rattle.rules_file.specs.Rules.{IsRules, participants_in};

use crate::names::{participant_name, phase_name, side_name};
use mkt_base::{Event, Kind, Participant, Qty, Reason, Reply, Side};
use mkt_io::{Printer, Sink};
use rules_file::Rules;

// An event, as a script enters it behind the gateway and the issue.
pub(crate) fn print_event<O: Sink>(printer: &mut Printer<'_, O>, rules: &Rules, event: &Event)
    requires { IsRules rules.now }
    ensures { PrintsWords O.contents O.faults printer.old printer.new
        (event_words (participants_in rules.now) event.now) }
{
    match event {
        Event::Order {
            participant,
            side,
            kind,
            qty,
        } => print_order(printer, rules, *participant, *side, *kind, *qty),
        Event::Change {
            participant,
            target,
            kind,
            qty,
        } => print_change(printer, rules, *participant, *target, *kind, *qty),
        Event::Cancel {
            participant,
            target,
        } => print_cancel(printer, rules, *participant, *target),
        Event::Clock { at } => {
            printer.word("clock");
            printer.moment(*at);
        }
        Event::Crash { node } => print_counted(printer, "crash", u64::from(node.n())),
        Event::Rejoin { node } => print_counted(printer, "rejoin", u64::from(node.n())),
    }
}

fn print_order<O: Sink>(
    printer: &mut Printer<'_, O>,
    rules: &Rules,
    participant: Participant,
    side: Side,
    kind: Kind,
    qty: Qty,
)
    requires { IsRules rules.now }
    ensures { PrintsWords O.contents O.faults printer.old printer.new
        (event_words (participants_in rules.now) (Event.Order participant side kind qty)) }
{
    printer.word("order");
    printer.word(participant_name(rules, participant));
    printer.word(side_name(side));
    print_kind(printer, kind);
    printer.number(u64::from(qty.0));
}

fn print_change<O: Sink>(
    printer: &mut Printer<'_, O>,
    rules: &Rules,
    participant: Participant,
    target: u32,
    kind: Kind,
    qty: Qty,
)
    requires { IsRules rules.now }
    ensures { PrintsWords O.contents O.faults printer.old printer.new
        (event_words (participants_in rules.now) (Event.Change participant target kind qty)) }
{
    printer.word("change");
    printer.word(participant_name(rules, participant));
    printer.number(u64::from(target));
    print_kind(printer, kind);
    printer.number(u64::from(qty.0));
}

fn print_cancel<O: Sink>(
    printer: &mut Printer<'_, O>,
    rules: &Rules,
    participant: Participant,
    target: u32,
)
    requires { IsRules rules.now }
    ensures { PrintsWords O.contents O.faults printer.old printer.new
        (event_words (participants_in rules.now) (Event.Cancel participant target)) }
{
    printer.word("cancel");
    printer.word(participant_name(rules, participant));
    printer.number(u64::from(target));
}

fn print_kind<O: Sink>(printer: &mut Printer<'_, O>, kind: Kind)
    ensures { PrintsWords O.contents O.faults printer.old printer.new (kind_word kind ∷ []) }
{
    match kind {
        Kind::Market => printer.word("market"),
        Kind::Limit(price) => printer.number(u64::from(price.0)),
    }
}

// A word and a number.
fn print_counted<O: Sink>(printer: &mut Printer<'_, O>, word: &str, n: u64)
    ensures { PrintsWords O.contents O.faults printer.old printer.new (word.now ∷ decimal n ∷ []) }
{
    printer.word(word);
    printer.number(n);
}

// A reply.
pub(crate) fn print_reply<O: Sink>(printer: &mut Printer<'_, O>, rules: &Rules, reply: &Reply)
    requires { IsRules rules.now }
    ensures { PrintsWords O.contents O.faults printer.old printer.new
        (reply_words (participants_in rules.now) reply.now) }
{
    match reply {
        Reply::Accepted {
            place,
            filled,
            left,
        } => print_taken(printer, "accepted", *place, *filled, *left),
        Reply::Changed {
            place,
            filled,
            left,
        } => print_taken(printer, "changed", *place, *filled, *left),
        Reply::Cancelled { left } => print_counted(printer, "cancelled", *left),
        Reply::Moment { steps } => print_counted(printer, "moment", u64::from(*steps)),
        Reply::NodeOut(node) => print_counted(printer, "out", u64::from(node.n())),
        Reply::NodeIn(node) => print_counted(printer, "joined", u64::from(node.n())),
        Reply::Refused(reason) => print_refused(printer, rules, reason),
    }
}

// What became of an order: its place, what it filled and what it has left.
fn print_taken<O: Sink>(
    printer: &mut Printer<'_, O>,
    word: &str,
    place: u64,
    filled: u64,
    left: u64,
)
    ensures { PrintsWords O.contents O.faults printer.old printer.new
        (word.now ∷ decimal place ∷ decimal filled ∷ decimal left ∷ []) }
{
    printer.word(word);
    printer.number(place);
    printer.number(filled);
    printer.number(left);
}

fn print_refused<O: Sink>(printer: &mut Printer<'_, O>, rules: &Rules, reason: &Reason)
    requires { IsRules rules.now }
    ensures { PrintsWords O.contents O.faults printer.old printer.new
        (reply_words (participants_in rules.now) (Reply.Refused reason.now)) }
{
    printer.word("refused");
    printer.number(number_of(reason));
    print_reason(printer, rules, reason);
}

// The number of a reason.
fn number_of(reason: &Reason) -> u64
    ensures { result ≡ reason_number reason.now }
{
    match reason {
        Reason::Closed(_) => 1,
        Reason::BadQty(_) => 2,
        Reason::BadPrice(_) => 3,
        Reason::UnknownOrder(_) => 4,
        Reason::NotYours(_) => 5,
        Reason::TimeBack(_) => 6,
        Reason::NodeDown(_) => 7,
        Reason::NodeUp(_) => 8,
    }
}

// The value that shows a reason.
fn print_reason<O: Sink>(printer: &mut Printer<'_, O>, rules: &Rules, reason: &Reason)
    requires { IsRules rules.now }
    ensures { PrintsWords O.contents O.faults printer.old printer.new
        (reason_word (participants_in rules.now) reason.now ∷ []) }
{
    match reason {
        Reason::Closed(phase) => printer.word(phase_name(*phase)),
        Reason::BadQty(qty) => printer.number(u64::from(qty.0)),
        Reason::BadPrice(price) => printer.number(u64::from(price.0)),
        Reason::UnknownOrder(target) => printer.number(u64::from(*target)),
        Reason::NotYours(participant) => printer.word(participant_name(rules, *participant)),
        Reason::TimeBack(now) => printer.moment(*now),
        Reason::NodeDown(node) => printer.number(u64::from(node.n())),
        Reason::NodeUp(node) => printer.number(u64::from(node.n())),
    }
}
