// The words of a line, and the numbers among them.
ghost use Rattle.std.specs.Prelude.{if◌then◌else◌, ◌≡◌, ◌<◌, ◌≤◌, ◌%◌, ◌↔◌, [], ◌∷◌, drop, length, true, false, slice_get, IsTrue, IfOk, IfSome, MatchOption, MatchResult};
ghost use Rattle.mkt_io.specs.Words.{is_blank, is_digit, digits_value, number_of, words};
ghost use Rattle.mkt_io.specs.Ends.{AreEnds};
ghost use Rattle.mkt_io.specs.Sides.{side_key};
ghost use Rattle.mkt_io.specs.LineFault.{is_skipped, next_number, no_more, number_in, side_of};
ghost use Rattle.std.specs.List.{list_all, position_or_len};

use crate::LineFault;
use crate::lanes::ends_of;
use mkt_base::Side;
use std::marker::Model;

/// The words that are left of a line. Spaces and tabs stand between words, and at the ends of a line.
#[derive(Drop)]
pub struct Words<'a> {
    rest: &'a [u8],
    // Where the words of `rest` end, or 0 where that is not known.
    ends: u64,
}

impl<'a> Model for Words<'a> {
    ghost use Rattle.std.specs.Prelude.{List, ℕ};
    ghost use Rattle.mkt_io.specs.Ends.{AreEnds};
    ghost use Rattle.mkt_io.specs.Sides.{side_key};
    ghost use Rattle.mkt_io.specs.Words.{words};

    ghost Value = { List (List ℕ) };

    ghost view = { λ w. words w.rest.now };

    ghost invariant = { λ w. AreEnds w.rest.now w.ends };
}

impl<'a> Words<'a> {
    /// The words of a line.
    #[inline(always)]
    pub fn new(line: &'a [u8]) -> Words<'a>
        ensures { result ≡ words line.now }
    {
        Words {
            rest: line,
            ends: ends_of(line),
        }
    }

    /// Takes the next word off the front. None where no word is left.
    #[inline(always)]
    pub fn next(&mut self) -> Option<&'a [u8]>
        ensures { MatchOption result ((self.old ≡ []) × (self.new ≡ [])) (λ word.
            self.old ≡ word.now ∷ self.new) }
    {
        let (line, ends) = without_blanks(self.rest, self.ends);
        let (word, rest, ends) = cut_word(line, ends)?;
        self.rest = rest;
        self.ends = ends;
        Some(word)
    }

    /// Takes the first word of a line that says something. None where the line is skipped: it has no word, or
    /// its first word begins with `#`.
    #[inline(always)]
    pub fn first(&mut self) -> Option<&'a [u8]>
        ensures { MatchOption result (is_skipped self.old ≡ true) (λ word.
            (is_skipped self.old ≡ false) × (self.old ≡ word.now ∷ self.new)) }
    {
        let word = self.next()?;
        if word.first() == Some(&b'#') {
            return None;
        }
        Some(word)
    }

    /// Takes the next word where one is wanted: that none is left is a fault.
    #[inline(always)]
    pub fn wanted(&mut self) -> Result<&'a [u8], LineFault>
        ensures { MatchResult result (λ word. self.old ≡ word.now ∷ self.new) (λ fault.
            (self.old ≡ []) × (fault ≡ LineFault.Word)) }
    {
        self.next().ok_or(LineFault::Word)
    }

    /// Whether no word is left.
    #[inline(always)]
    pub fn at_end(&self) -> bool
        ensures { IsTrue result ↔ (self.now ≡ []) }
    {
        let (line, ends) = without_blanks(self.rest, self.ends);
        cut_word(line, ends).is_none()
    }

    /// Ends the line: a word that is left is a fault.
    #[inline(always)]
    pub fn end(&mut self) -> Result<(), LineFault>
        ensures { result ≡ no_more self.old }
    {
        if self.at_end() {
            Ok(())
        } else {
            Err(LineFault::Word)
        }
    }
}

#[inline]
pub(crate) fn is_blank(byte: u8) -> bool
    ensures { result ≡ is_blank byte }
{
    // (one test tells almost every other byte)
    byte <= b' ' && (byte == b' ' || byte == b'\t')
}

// A line without the blanks that it begins with, and where its words end.
#[inline(always)]
fn without_blanks(line: &[u8], ends: u64) -> (&[u8], u64)
    requires { AreEnds line.now ends }
    ensures words { words result.0.now ≡ words line.now }
    ensures first { IfSome (slice_get result.0.now 0) (λ byte. is_blank byte ≡ false) }
    ensures ends { AreEnds result.0.now result.1 }
{
    // (most often a word begins here)
    if is_at_word(ends) {
        return (line, ends);
    }
    let mut rest = line;
    let mut left = ends;
    while let [byte, more @ ..] = rest {
        if !is_blank(*byte) {
            break;
        }
        left = ends_behind(rest, left, 1);
        rest = more;
    }
    (rest, left)
}

// Whether it is known that a line begins with a word.
#[inline(always)]
fn is_at_word(ends: u64) -> bool
    ensures { IsTrue result → (0 < ends) × (ends % 2 ≡ 0) }
{
    ends != 0 && ends % 2 == 0
}

// The word that a line begins with, what stands behind it, and where the words of that end. None where the line is empty.
#[inline(always)]
fn cut_word(line: &[u8], ends: u64) -> Option<(&[u8], &[u8], u64)>
    requires first { IfSome (slice_get line.now 0) (λ byte. is_blank byte ≡ false) }
    requires ends { AreEnds line.now ends }
    ensures words { MatchOption result (words line.now ≡ []) (λ parts.
        words line.now ≡ parts.0.now ∷ words parts.1.now) }
    ensures ends { IfSome result (λ parts. AreEnds parts.1.now parts.2) }
{
    if line.is_empty() {
        return None;
    }
    let at = word_length(line, ends);
    if at == line.len() {
        return Some((line, &[], 0));
    }
    // (the blank behind the word goes with it)
    Some((
        &line[..at],
        &line[at + 1..],
        ends_behind(line, ends, at + 1),
    ))
}

// How many bytes stand before the first blank.
#[inline(always)]
fn word_length(line: &[u8], ends: u64) -> usize
    requires { AreEnds line.now ends }
    ensures value { result ≡ position_or_len is_blank line.now }
    ensures within { result ≤ length line.now }
{
    if ends == 0 {
        return scanned_length(line);
    }
    ends.trailing_zeros() as usize
}

// The same, byte by byte.
#[inline(never)]
fn scanned_length(line: &[u8]) -> usize
    ensures value { result ≡ position_or_len is_blank line.now }
    ensures within { result ≤ length line.now }
{
    match line.iter().position(|byte| is_blank(*byte)) {
        Some(at) => at,
        None => line.len(),
    }
}

// Where the words end in what stands behind the first bytes. (Where that is not known `ends` is 0, and so is every shift of it.)
#[inline(always)]
fn ends_behind(line: &[u8], ends: u64, at: usize) -> u64
    requires ends { AreEnds line.now ends }
    requires within { at ≤ length line.now }
    ensures { AreEnds (drop at line.now) result }
{
    ends >> (at % 64)
}

#[tactic(auto, unfolding(crate::specs::Words::number_of))]
/// The value of a number word: 1 to 10 digits with no leading zero but in the word `0`, and at most
/// 4,294,967,295. None where the word is no such word.
#[inline(always)]
pub fn number_word(word: &[u8]) -> Option<u32>
    ensures { result ≡ number_of word.now }
{
    let has_form = word.len() == 1 || 1 < word.len() && word.len() <= 10 && word[0] != b'0';
    if !has_form {
        return None;
    }
    let value = digits_value(word)?;
    u32::try_from(value).ok()
}

// What at most 10 digits stand for. None where a byte is no digit.
#[inline(always)]
fn digits_value(word: &[u8]) -> Option<u64>
    requires { length word.now ≤ 10 }
    ensures { MatchOption result (list_all is_digit word.now ≡ false) (λ value.
        (list_all is_digit word.now ≡ true) × (value ≡ digits_value word.now)) }
{
    let mut value = 0u64;
    for byte in word {
        if !(b'0'..=b'9').contains(byte) {
            return None;
        }
        value = 10 * value + u64::from(*byte - b'0');
    }
    Some(value)
}

#[tactic(auto, unfolding(crate::specs::LineFault::number_in))]
/// The value of a number word from `low` to `high`. Any other word is a fault.
#[inline(always)]
pub fn number_in(word: &[u8], low: u32, high: u32) -> Result<u32, LineFault>
    ensures { result ≡ number_in low high word.now }
{
    match number_word(word) {
        Some(n) if low <= n && n <= high => Ok(n),
        _ => Err(LineFault::Number),
    }
}

#[tactic(auto, unfolding(crate::specs::LineFault::next_number))]
/// Takes the next word, as a number from `low` to `high`. That none is left, and any other word, is a fault.
#[inline(always)]
pub fn next_number(words: &mut Words<'_>, low: u32, high: u32) -> Result<u32, LineFault>
    ensures exact { MatchResult result (λ n. next_number low high words.old ≡ Ok (n, words.new)) (λ fault.
        next_number low high words.old ≡ Err fault) }
    ensures range { IfOk result (λ n. (low ≤ n) × (n ≤ high)) }
{
    let word = words.wanted()?;
    number_in(word, low, high)
}

/// The side of the word `buy` or `sell`. Any other word is a fault.
#[inline(always)]
pub fn side_of(word: &[u8]) -> Result<Side, LineFault>
    ensures { result ≡ side_of word.now }
{
    // (which of the two stands there no processor can foresee, so there is no branch for it)
    let n = word.len();
    if n < 3 {
        return Err(LineFault::Word);
    }
    if n > 4 {
        return Err(LineFault::Word);
    }
    let key = u32::from_le_bytes([word[0], word[1], word[2], word[n - 1]]);
    if key != side_key(n == 4) {
        return Err(LineFault::Word);
    }
    Ok(side_when(n == 4))
}

// The first three bytes and the last one of the word `sell` or `buy`, as a number.
#[inline(always)]
fn side_key(sells: bool) -> u32
    ensures { result ≡ side_key sells }
{
    if sells { 0x6c6c_6573 } else { 0x7979_7562 }
}

#[inline(always)]
fn side_when(sells: bool) -> Side
    ensures { result ≡ (if sells then Side.Sell else Side.Buy) }
{
    if sells { Side::Sell } else { Side::Buy }
}
