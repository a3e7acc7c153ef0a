// The rows of the lists of a rules file, each with its form.
ghost use Rattle.std.specs.Prelude.{◌≡◌, ◌<◌, ◌≤◌, Option, true, length, map, IfOk, IfSome, All, option_map, position};
ghost use Rattle.std.specs.List.{list_all};
ghost use Rattle.toml.specs.Data.{Data};
ghost use Rattle.toml.specs.View.{table_view, view};
ghost use Rattle.allotment.specs.Rounds.{IsRound};
ghost use Rattle.rules_file.specs.Forms.{all_of, amount_of, band_row, is_name, is_name_byte, is_slash, name_row, number_within, part_of, round_of, round_row, session_row, tick_row, units_of};

use crate::value::{integer_at, row_of, time_at};
use allotment::Round;
use mkt_base::{Name, Rows};
use mkt_io::number_word;
use session_phase::Session;
use std::alloc::{AllocError, Global};
use tick_grid::{BandRow, TickRow};
use toml::Value;

// A row of a list, which is read from a value of its form.
pub(crate) trait Form: Sized + Drop {
    // What a value says, where it has the form.
    ghost form: { Data → Option Self };

    // What holds of each row of the form.
    ghost good: { Self → Type 0 };

    // Reads a value; none where it does not have the form.
    fn read(alloc: Global, value: &Value) -> Result<Option<Self>, AllocError>
        ensures exact { IfOk result (λ row. row ≡ form (view value.now)) }
        ensures sound { IfOk result (λ row. IfSome row good) };
}

// Reads all values; none where one of them does not have the form.
pub(crate) fn all_of<R: Form>(
    alloc: Global,
    values: &[Value],
) -> Result<Option<Rows<R>>, AllocError>
    ensures exact { IfOk result (λ rows. rows ≡ all_of R.form (map view values.now)) }
    ensures sound { IfOk result (λ rows. IfSome rows (All R.good)) }
    ensures size { IfOk result (λ rows. IfSome rows (λ found. length found ≡ length values.now)) }
{
    let mut rows = Vec::new(alloc);
    for value in values {
        let Some(row) = R::read(alloc, value)? else {
            return Ok(None);
        };
        rows.push(row)?;
    }
    Ok(Some(Rows::new(rows)))
}

#[tactic(auto, unfolding(crate::specs::Forms::tick_row))]
fn tick_row(value: &Value) -> Option<TickRow>
    ensures exact { result ≡ tick_row (view value.now) }
    ensures sound { IfSome result (λ row. (1 ≤ row.tick) × (row.tick ≤ 1000000)) }
{
    let Some(row) = row_of(value, 2) else {
        return None;
    };
    let upto = integer_at(row, 0, 1, 1_000_000_000)?;
    let tick = integer_at(row, 1, 1, 1_000_000)?;
    Some(TickRow { upto, tick })
}

#[tactic(auto, unfolding(crate::specs::Forms::band_row))]
fn band_row(value: &Value) -> Option<BandRow>
    ensures exact { result ≡ band_row (view value.now) }
    ensures sound { IfSome result (λ row. (1 ≤ row.value) × (row.value ≤ 1000000000)) }
{
    let Some(row) = row_of(value, 2) else {
        return None;
    };
    let below = integer_at(row, 0, 1, 1_000_000_001)?;
    let value = integer_at(row, 1, 1, 1_000_000_000)?;
    Some(BandRow { below, value })
}

#[tactic(auto, unfolding(crate::specs::Forms::session_row))]
fn session_row(value: &Value) -> Option<Session>
    ensures { result ≡ session_row (view value.now) }
{
    let Some(row) = row_of(value, 3) else {
        return None;
    };
    let accept = time_at(row, 0)?;
    let begin = time_at(row, 1)?;
    let finish = time_at(row, 2)?;
    Some(Session {
        accept,
        begin,
        finish,
    })
}

// The value of a number word from `low` to `high`.
#[tactic(auto, unfolding(crate::specs::Forms::number_within))]
fn number_within(word: &[u8], low: u32, high: u32) -> Option<u32>
    ensures exact { result ≡ number_within low high word.now }
    ensures range { IfSome result (λ n. (low ≤ n) × (n ≤ high)) }
{
    let n = number_word(word)?;
    if low <= n && n <= high { Some(n) } else { None }
}

// What stands before the letter u at the end of a word.
#[tactic(auto, unfolding(crate::specs::Forms::amount_of))]
fn amount_of(word: &[u8]) -> Option<&[u8]>
    ensures { option_map (λ amount. amount.now) result ≡ amount_of word.now }
{
    if word.is_empty() {
        return None;
    }
    let n = word.len() - 1;
    if word[n] == b'u' {
        Some(&word[..n])
    } else {
        None
    }
}

#[tactic(auto, unfolding(crate::specs::Forms::units_of))]
fn units_of(word: &[u8]) -> Option<Round>
    ensures exact { result ≡ units_of word.now }
    ensures sound { IfSome result IsRound }
{
    let k = number_within(word, 1, 1_000_000)?;
    Some(Round::Units(k))
}

// The place of the first slash.
fn slash_in(word: &[u8]) -> Option<usize>
    ensures exact { result ≡ position is_slash word.now }
    ensures within { IfSome result (λ at. at < length word.now) }
{
    word.iter().position(|byte| *byte == b'/')
}

#[tactic(auto, unfolding(crate::specs::Forms::part_of))]
fn part_of(word: &[u8]) -> Option<Round>
    ensures exact { result ≡ part_of word.now }
    ensures sound { IfSome result IsRound }
{
    let slash = slash_in(word)?;
    let n = number_within(&word[..slash], 1, 1000)?;
    let d = number_within(&word[slash + 1..], n, 1000)?;
    Some(Round::Part { n, d })
}

#[tactic(auto, unfolding(crate::specs::Forms::round_of))]
fn round_of(word: &[u8]) -> Option<Round>
    ensures exact { result ≡ round_of word.now }
    ensures sound { IfSome result IsRound }
{
    if word == b"all".as_slice() {
        return Some(Round::All);
    }
    match amount_of(word) {
        Some(amount) => units_of(amount),
        None => part_of(word),
    }
}

#[tactic(auto, unfolding(crate::specs::Forms::round_row))]
fn round_row(value: &Value) -> Option<Round>
    ensures exact { result ≡ round_row (view value.now) }
    ensures sound { IfSome result IsRound }
{
    match value.as_str() {
        Some(word) => round_of(word.as_bytes()),
        None => None,
    }
}

fn is_name_byte(byte: u8) -> bool
    ensures { result ≡ is_name_byte byte }
{
    byte.is_ascii_digit() || (b'A' <= byte && byte <= b'Z') || (b'a' <= byte && byte <= b'z')
}

fn all_name_bytes(word: &[u8]) -> bool
    ensures { result ≡ list_all is_name_byte word.now }
{
    let mut all = true;
    for byte in word {
        all &= is_name_byte(*byte);
    }
    all
}

// Whether a word is a name: 1 to 8 letters and digits.
#[tactic(auto, unfolding(crate::specs::Forms::is_name))]
fn is_name(word: &[u8]) -> bool
    ensures { result ≡ is_name word.now }
{
    1 <= word.len() && word.len() <= 8 && all_name_bytes(word)
}

#[tactic(auto, unfolding(crate::specs::Forms::name_row))]
pub(crate) fn name_row(value: &Value) -> Option<&str>
    ensures exact { option_map (λ name. name.now) result ≡ name_row (view value.now) }
    ensures sound { IfSome result (λ name. is_name name.now ≡ true) }
{
    match value.as_str() {
        Some(word) if is_name(word.as_bytes()) => Some(word),
        _ => None,
    }
}

impl Form for TickRow {
    ghost form = { tick_row };

    ghost good = { λ row. (1 ≤ row.tick) × (row.tick ≤ 1000000) };

    fn read(_alloc: Global, value: &Value) -> Result<Option<TickRow>, AllocError> {
        Ok(tick_row(value))
    }
}

impl Form for BandRow {
    ghost form = { band_row };

    ghost good = { λ row. (1 ≤ row.value) × (row.value ≤ 1000000000) };

    fn read(_alloc: Global, value: &Value) -> Result<Option<BandRow>, AllocError> {
        Ok(band_row(value))
    }
}

impl Form for Session {
    ghost form = { session_row };

    ghost good = { λ _. Unit {0} };

    fn read(_alloc: Global, value: &Value) -> Result<Option<Session>, AllocError> {
        Ok(session_row(value))
    }
}

impl Form for Round {
    ghost form = { round_row };

    ghost good = { IsRound };

    fn read(_alloc: Global, value: &Value) -> Result<Option<Round>, AllocError> {
        Ok(round_row(value))
    }
}

impl Form for Name {
    ghost form = { name_row };

    ghost good = { λ name. is_name name ≡ true };

    fn read(alloc: Global, value: &Value) -> Result<Option<Name>, AllocError> {
        match name_row(value) {
            Some(name) => Ok(Some(Name::new(String::from_str(alloc, name)?))),
            None => Ok(None),
        }
    }
}
