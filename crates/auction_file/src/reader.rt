// The auction file: a grid with a reference, and an order a line.
ghost use Rattle.std.specs.Prelude.{◌≡◌, ◌<◌, ◌≤◌, ◌^◌, ℕ, List, length, IfErr, IfOk, IfSome, MatchResult, OnOk, Option, Ok};
ghost use Rattle.mkt_io.specs.LineFault.{checked_words};
ghost use Rattle.mkt_io.specs.Read.{Fails};
ghost use Rattle.auction_file.specs.EvenGrid.{IsEvenGrid};
ghost use Rattle.auction_file.specs.AuctionFile.{Auction, IsFileEntry, IsSound, auction_of, entry_of, grid_from, grid_line, line_entry, order_line, position_in, spot_of, with_entry};
ghost use Rattle.auction_file.specs.LevelList.{IsWithin};
ghost use Rattle.auction_file.specs.Meaning.{HasRoomFor, IsAlike, IsReadSoFar, grid_so_far, merged_of};

use crate::{EvenGrid, Levels};
use mkt_base::{Caller, Order, Participant, Side, Spot};
use mkt_io::{
    LineFault, Lines, Piece, TextFault, Words, checked_words, next_number, number_word, side_of,
    too_long,
};
use std::alloc::Global;

/// The highest price, in tenths of a yen.
const MAX_PRICE: u32 = 1_000_000_000;

/// The largest step of a grid, and how many prices it may have.
const MAX_TICK: u32 = 1_000_000;

const MAX_COUNT: u32 = 20_000;

/// The greatest quantity of an order, in shares.
const MAX_QUANTITY: u32 = 100_000_000;

/// What a line of the file says.
enum Entry {
    /// Nothing: it has no words, or is a comment.
    Skipped,
    /// The grid, and the position of the reference on it.
    Grid(EvenGrid, u32),
    Order(Order),
}

/// An auction that was read.
#[derive(Drop)]
pub struct AuctionFile {
    pub grid: EvenGrid,
    /// The position of the reference on the grid.
    pub reference: u32,
    /// The orders, those of a level as one.
    pub levels: Levels,
}

impl AuctionFile {
    /// Reads a file of fewer than 2^32 bytes: what it says, or its first fault. The orders of a level are read into one, by
    /// which an auction answers as it does by all of them.
    pub fn read(alloc: Global, bytes: &[u8]) -> Result<AuctionFile, TextFault>
        requires { length bytes.now < 2 ^ 32 }
        ensures exact { MatchResult result
            (λ file. (a : Auction) × (auction_of bytes.now ≡ Ok a) × IsAlike (merged_of file) a)
            (λ e. Fails e (auction_of bytes.now)) }
        ensures sound { IfOk result (λ file. IsSound (merged_of file)) }
    {
        let mut lines = Lines::new(bytes);
        let mut before = None;
        let mut number = 1;
        'each_line: loop {
            match lines.next() {
                Piece::End => break 'each_line,
                Piece::TooLong(line) => {
                    let fault = too_long(line);
                    return Err(TextFault::At { line, fault });
                }
                Piece::Line { number: line, text } => {
                    let entry = read_line(grid_so_far(&before), line, text)?;
                    add_entry(alloc, &mut before, entry)?;
                    number = line + 1;
                }
            }
        }
        before.ok_or(TextFault::At {
            line: number,
            fault: LineFault::Word,
        })
    }
}

#[tactic(auto, unfolding(crate::specs::AuctionFile::grid_from))]
fn grid_from(low: u32, tick: u32, count: u32) -> Result<EvenGrid, LineFault>
    requires low { (1 ≤ low) × (low ≤ 1000000000) }
    requires tick { (1 ≤ tick) × (tick ≤ 1000000) }
    requires count { (1 ≤ count) × (count ≤ 20000) }
    ensures exact { result ≡ grid_from low tick count }
    ensures sound { IfOk result IsEvenGrid }
{
    let last = u64::from(low) + u64::from(count - 1) * u64::from(tick);
    if last <= u64::from(MAX_PRICE) {
        Ok(EvenGrid::new(low, tick, count))
    } else {
        Err(LineFault::Number)
    }
}

#[tactic(auto, unfolding(crate::specs::AuctionFile::position_in))]
fn position_in(grid: EvenGrid, word: &[u8]) -> Result<u32, LineFault>
    requires { IsEvenGrid grid }
    ensures exact { result ≡ position_in grid word.now }
    ensures within { IfOk result (λ position. position < grid.count) }
{
    let price = number_word(word).ok_or(LineFault::Number)?;
    grid.position(price).ok_or(LineFault::Number)
}

#[tactic(auto, unfolding(crate::specs::AuctionFile::grid_line))]
fn grid_line(words: &mut Words<'_>) -> Result<Entry, LineFault>
    ensures exact { result ≡ grid_line words.old }
    ensures sound { IfOk result (IsFileEntry None) }
{
    let low = next_number(words, 1, MAX_PRICE)?;
    let tick = next_number(words, 1, MAX_TICK)?;
    let count = next_number(words, 1, MAX_COUNT)?;
    let grid = grid_from(low, tick, count)?;
    let reference = words.wanted()?;
    let position = position_in(grid, reference)?;
    words.end()?;
    Ok(Entry::Grid(grid, position))
}

#[tactic(auto, unfolding(crate::specs::AuctionFile::spot_of))]
fn spot_of(grid: EvenGrid, word: &[u8]) -> Result<Spot, LineFault>
    requires { IsEvenGrid grid }
    ensures exact { result ≡ spot_of grid word.now }
    ensures within { IfOk result (IsWithin grid.count) }
{
    if word == b"market".as_slice() {
        return Ok(Spot::Market);
    }
    let position = position_in(grid, word)?;
    Ok(Spot::At(position))
}

#[tactic(auto, unfolding(crate::specs::AuctionFile::order_line))]
fn order_line(
    grid: EvenGrid,
    side: Side,
    number: u32,
    words: &mut Words<'_>,
) -> Result<Entry, LineFault>
    requires { IsEvenGrid grid }
    ensures exact { result ≡ order_line grid side number words.old }
    ensures sound { IfOk result (IsFileEntry (Some grid)) }
{
    let quantity = next_number(words, 1, MAX_QUANTITY)?;
    let kind = words.wanted()?;
    let spot = spot_of(grid, kind)?;
    words.end()?;
    Ok(Entry::Order(Order {
        place: u64::from(number),
        caller: Caller(0),
        own: number,
        participant: Participant(0),
        side,
        spot,
        left: u64::from(quantity),
    }))
}

// What a line with these words says, after the grid where that has been read.
#[tactic(auto, unfolding(crate::specs::AuctionFile::entry_of, crate::specs::AuctionFile::said_by))]
fn entry_of(
    before: Option<EvenGrid>,
    number: u32,
    words: &mut Words<'_>,
) -> Result<Entry, LineFault>
    requires { IfSome before IsEvenGrid }
    ensures exact { result ≡ entry_of before number words.old }
    ensures sound { IfOk result (IsFileEntry before) }
{
    let Some(first) = words.first() else {
        return Ok(Entry::Skipped);
    };
    match before {
        None if first == b"grid".as_slice() => grid_line(words),
        None => Err(LineFault::Word),
        Some(grid) => {
            let side = side_of(first)?;
            order_line(grid, side, number, words)
        }
    }
}

// What a line says, or its first fault with its number.
#[tactic(auto, unfolding(crate::specs::AuctionFile::line_entry))]
fn read_line(before: Option<EvenGrid>, line: u32, text: &[u8]) -> Result<Entry, TextFault>
    requires { IfSome before IsEvenGrid }
    ensures exact { MatchResult result (λ entry. line_entry before line text.now ≡ Ok entry) (λ e.
        Fails e (line_entry before line text.now)) }
    ensures sound { IfOk result (IsFileEntry before) }
{
    let entry = match checked_words(line, text) {
        Ok(mut words) => entry_of(before, line, &mut words),
        Err(fault) => Err(fault),
    };
    entry.map_err(|fault| TextFault::At { line, fault })
}

fn grid_so_far(before: &Option<AuctionFile>) -> Option<EvenGrid>
    ensures { result ≡ grid_so_far before.now }
{
    match before {
        None => None,
        Some(file) => Some(file.grid),
    }
}

// Adds what a line says to what has been read.
fn add_entry(alloc: Global, before: &mut Option<AuctionFile>, entry: Entry) -> Result<(), TextFault>
    requires { HasRoomFor before.old entry }
    ensures ok { OnOk result ((said : Option Auction) → IsReadSoFar before.old said
        → IsReadSoFar before.new (with_entry said entry)) }
    ensures memory { IfErr result (λ e. e ≡ TextFault.Memory) }
{
    match entry {
        Entry::Skipped => {}
        Entry::Grid(grid, reference) => {
            let levels = Levels::new(alloc, grid.count()).map_err(|_| TextFault::Memory)?;
            *before = Some(AuctionFile {
                grid,
                reference,
                levels,
            });
        }
        Entry::Order(order) => {
            if let Some(file) = before {
                file.levels.add(order).map_err(|_| TextFault::Memory)?;
            }
        }
    }
    Ok(())
}
