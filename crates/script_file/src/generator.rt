// Writes the script that is made of a number.
ghost use Rattle.std.specs.Prelude.{if◌then◌else◌, ◌≡◌, ◌/◌, ◌<◌, ◌≤◌, ◌^◌, [], ◌∷◌, IfOk, length};
ghost use Rattle.mkt_base.specs.Certificate.{side_word};
ghost use Rattle.mkt_io.specs.Printed.{PrintsLines, PrintsWords};
ghost use Rattle.mkt_io.specs.Sink.{Writes};
ghost use Rattle.script_file.specs.Generated.{barrier_line, clock_line, gateway_word, generated, issue_word, limit_word, opening_lines, order_line, orders_text, participant_word};

use crate::draws::{DrawnOrder, Draws};
use mkt_base::Side;
use mkt_io::{Failed, Printer, Sink, WriteFault};
use std::alloc::Global;
use thiserror::Error;

/// Why no script was made.
#[derive(Clone, Copy, Debug, PartialEq, Eq, Error)]
pub enum GenFault {
    /// There is no memory for its text.
    #[error("out of memory")]
    Memory,
}

/// The longest line of a generated script, with its end.
const LONGEST_LINE: u64 = 34;

/// Room for the lines that are not of orders.
const OTHER_LINES: u64 = 128;

// The bytes of a script, as far as there is memory for them.
#[derive(Drop)]
struct ScriptBytes {
    bytes: Vec<u8>,
    faults: u64,
}

impl Sink for ScriptBytes {
    ghost use Rattle.std.specs.Prelude.{Some};

    ghost contents = { λ s. Some s.bytes.items };

    ghost faults = { λ s. s.faults };

    fn write(&mut self, piece: &[u8]) -> Result<usize, Failed> {
        if self.bytes.extend_from_slice(piece).is_err() {
            self.faults = self.faults.saturating_add(1);
            return Err(Failed);
        }
        Ok(piece.len())
    }
}

/// The script that is made of a number and has so many orders: the same for the same two numbers. Its text takes 34 bytes an order
/// at most; one of 2^32 bytes or more, which nobody reads, is not made, as where there is no memory.
pub fn generate(alloc: Global, number: u32, orders: u32) -> Result<Vec<u8>, GenFault>
    ensures script { IfOk result (λ script. script.items ≡ generated number orders) }
    ensures size { IfOk result (λ script. length script.items < 2 ^ 32) }
{
    let room = u64::from(orders) * LONGEST_LINE + OTHER_LINES;
    let Ok(bytes) = Vec::with_capacity(alloc, room as usize) else {
        return Err(GenFault::Memory);
    };
    let mut script = ScriptBytes { bytes, faults: 0 };
    match write_generated(&mut script, number, orders) {
        Ok(()) if script.bytes.len() < 1 << 32 => Ok(script.bytes),
        Ok(()) | Err(WriteFault) => Err(GenFault::Memory),
    }
}

/// Writes the script that is made of a number and has so many orders. It takes no memory.
pub fn write_generated<O: Sink>(out: &mut O, number: u32, orders: u32) -> Result<(), WriteFault>
    ensures { Writes O.contents O.faults out.old (generated number orders) out.new result }
{
    let mut printer = Printer::new(out);
    print_generated(&mut printer, number, orders);
    printer.finish()
}

fn print_generated<O: Sink>(printer: &mut Printer<'_, O>, number: u32, orders: u32)
    ensures { PrintsLines O.contents O.faults printer.old printer.new (generated number orders) }
{
    print_clock(printer, "08:00:00.000");
    print_orders(printer, number, orders);
    print_barrier(printer);
    print_clock(printer, "15:00:00.000");
}

// The lines of the orders, and the opening behind a quarter of them.
fn print_orders<O: Sink>(printer: &mut Printer<'_, O>, number: u32, orders: u32)
    ensures { PrintsLines O.contents O.faults printer.old printer.new (orders_text number (orders / 4) orders) }
{
    let mut draws = Draws::new(number);
    let quarter = orders / 4;
    for i in 0..orders {
        print_opening_at(printer, i == quarter);
        print_order(printer, &draws.order());
    }
}

fn print_opening_at<O: Sink>(printer: &mut Printer<'_, O>, here: bool)
    ensures { PrintsLines O.contents O.faults printer.old printer.new (if here then opening_lines else []) }
{
    if here {
        print_barrier(printer);
        print_clock(printer, "09:00:00.000");
        print_barrier(printer);
    }
}

fn print_barrier<O: Sink>(printer: &mut Printer<'_, O>)
    ensures { PrintsLines O.contents O.faults printer.old printer.new barrier_line }
{
    printer.word("barrier");
    printer.line_end();
}

fn print_clock<O: Sink>(printer: &mut Printer<'_, O>, at: &str)
    ensures { PrintsLines O.contents O.faults printer.old printer.new (clock_line at.now) }
{
    printer.word("g1");
    printer.word("*");
    printer.word("clock");
    printer.word(at);
    printer.line_end();
}

fn print_order<O: Sink>(printer: &mut Printer<'_, O>, order: &DrawnOrder)
    requires gateway { (1 ≤ order.now.gateway) × (order.now.gateway ≤ 4) }
    requires participant { (1 ≤ order.now.participant) × (order.now.participant ≤ 8) }
    ensures { PrintsLines O.contents O.faults printer.old printer.new (order_line order.now) }
{
    printer.word(gateway_word(order.gateway));
    printer.word(issue_word(order.issue));
    printer.word("order");
    printer.word(participant_word(order.participant));
    printer.word(side_word(order.side));
    print_limit(printer, order.limit);
    printer.number(order.quantity);
    printer.line_end();
}

fn print_limit<O: Sink>(printer: &mut Printer<'_, O>, limit: Option<u64>)
    ensures { PrintsWords O.contents O.faults printer.old printer.new (limit_word limit ∷ []) }
{
    match limit {
        None => printer.word("market"),
        Some(price) => printer.number(price),
    }
}

fn gateway_word(number: u64) -> &'static str
    requires { (1 ≤ number) × (number ≤ 4) }
    ensures { result.now ≡ gateway_word number }
{
    match number {
        1 => "g1",
        2 => "g2",
        3 => "g3",
        4 => "g4",
        _ => unreachable!(),
    }
}

fn participant_word(number: u64) -> &'static str
    requires { (1 ≤ number) × (number ≤ 8) }
    ensures { result.now ≡ participant_word number }
{
    match number {
        1 => "p1",
        2 => "p2",
        3 => "p3",
        4 => "p4",
        5 => "p5",
        6 => "p6",
        7 => "p7",
        8 => "p8",
        _ => unreachable!(),
    }
}

fn issue_word(issue: u64) -> &'static str
    ensures { result.now ≡ issue_word issue }
{
    match issue {
        0 => "AAAA",
        _ => "BBBB",
    }
}

fn side_word(side: Side) -> &'static str
    ensures { result.now ≡ side_word side }
{
    match side {
        Side::Buy => "buy",
        Side::Sell => "sell",
    }
}
