// Tests of the bytes of a line, sixteen at a time, or eight where a line has fewer than sixteen.
ghost use Rattle.std.specs.Prelude.{◌≡◌, ◌+◌, ◌<◌, ◌≤◌, length, map, take, drop};
ghost use Rattle.std.specs.List.{list_all};
ghost use Rattle.std.specs.Simd.Lanes.{mask_l};
ghost use Rattle.mkt_io.specs.Ends.{AreEnds, ends_of};
ghost use Rattle.mkt_io.specs.Words.{is_blank, is_text_byte};

use crate::words::is_blank;
use std::simd::prelude::*;

// How many bytes are tested at a time.
const LANES: usize = 16;

// And how many of a line that has fewer.
const HALF: usize = 8;

// The longest line whose word ends have room in 64 bits, with one for the end of the line.
const SHORT: usize = 63;

// Which of sixteen bytes are blanks, the first in the lowest bit.
#[inline(always)]
fn blanks_at(line: &[u8], at: usize) -> u64
    requires { at + 16 ≤ length line.now }
    ensures { result ≡ mask_l (map is_blank (take 16 (drop at line.now))) }
{
    let bytes = u8x16::from_slice(&line[at..]);
    bytes.simd_eq(u8x16::splat(b' ')).to_bitmask() | bytes.simd_eq(u8x16::splat(b'\t')).to_bitmask()
}

// Which of eight bytes are blanks.
#[inline(always)]
fn blanks_of_eight(line: &[u8], at: usize) -> u64
    requires { at + 8 ≤ length line.now }
    ensures { result ≡ mask_l (map is_blank (take 8 (drop at line.now))) }
{
    let bytes = u8x8::from_slice(&line[at..]);
    bytes.simd_eq(u8x8::splat(b' ')).to_bitmask() | bytes.simd_eq(u8x8::splat(b'\t')).to_bitmask()
}

// Whether sixteen bytes are text.
#[inline(always)]
fn is_text_at(line: &[u8], at: usize) -> bool
    requires { at + 16 ≤ length line.now }
    ensures { result ≡ list_all is_text_byte (take 16 (drop at line.now)) }
{
    let bytes = u8x16::from_slice(&line[at..]);
    let low = bytes.simd_lt(u8x16::splat(b' ')).to_bitmask();
    let no_tab = bytes.simd_ne(u8x16::splat(b'\t')).to_bitmask();
    let high = bytes.simd_gt(u8x16::splat(b'~')).to_bitmask();
    low & no_tab | high == 0
}

// Whether eight bytes are text.
#[inline(always)]
fn is_text_of_eight(line: &[u8], at: usize) -> bool
    requires { at + 8 ≤ length line.now }
    ensures { result ≡ list_all is_text_byte (take 8 (drop at line.now)) }
{
    let bytes = u8x8::from_slice(&line[at..]);
    let low = bytes.simd_lt(u8x8::splat(b' ')).to_bitmask();
    let no_tab = bytes.simd_ne(u8x8::splat(b'\t')).to_bitmask();
    let high = bytes.simd_gt(u8x8::splat(b'~')).to_bitmask();
    low & no_tab | high == 0
}

// Where the words of a line end: bit k is set where byte k is a blank, and the bit behind the last byte. 0 where the line
// has more than 63 bytes.
#[inline(always)]
pub(crate) fn ends_of(line: &[u8]) -> u64
    ensures { AreEnds line.now result }
{
    let n = line.len();
    if n > SHORT {
        return 0;
    }
    if n < LANES {
        return short_ends(line);
    }
    let over = n % LANES;
    let mut ends = (blanks_at(line, n - LANES) >> (LANES - over)) + (1 << over);
    let mut at = n - over;
    while at > 0 {
        at -= LANES;
        ends = (ends << LANES) + blanks_at(line, at);
    }
    ends
}

// The same of a line of fewer than sixteen bytes.
#[inline(always)]
fn short_ends(line: &[u8]) -> u64
    requires { length line.now < 16 }
    ensures { result ≡ ends_of line.now }
{
    let n = line.len();
    if n < HALF {
        return ends_before(line, n, 1);
    }
    let over = n - HALF;
    let last = (blanks_of_eight(line, over) >> (HALF - over)) + (1 << over);
    (last << HALF) + blanks_of_eight(line, 0)
}

// The same of a whole line, from those of what stands from `from` on.
fn ends_before(line: &[u8], from: usize, ends: u64) -> u64
    requires within { from ≤ length line.now }
    requires short { length line.now < 64 }
    requires ends { ends ≡ ends_of (drop from line.now) }
    ensures { result ≡ ends_of line.now }
{
    let mut at = from;
    let mut ends = ends;
    while at > 0 {
        at -= 1;
        ends = 2 * ends + u64::from(is_blank(line[at]));
    }
    ends
}

/// Whether a line is text: each byte is a tab or one of 32 to 126.
#[inline(always)]
pub fn is_text(line: &[u8]) -> bool
    ensures { result ≡ list_all is_text_byte line.now }
{
    let n = line.len();
    if n < LANES {
        return is_short_text(line);
    }
    // The last bytes are one more piece, which may overlap the one before it.
    let mut all = is_text_at(line, n - LANES);
    for i in 0..n / LANES {
        all &= is_text_at(line, LANES * i);
    }
    all
}

// The same of a line of fewer than sixteen bytes.
#[inline(always)]
fn is_short_text(line: &[u8]) -> bool
    requires { length line.now < 16 }
    ensures { result ≡ list_all is_text_byte line.now }
{
    let n = line.len();
    if n < HALF {
        return all_text(line);
    }
    is_text_of_eight(line, 0) & is_text_of_eight(line, n - HALF)
}

// Whether bytes are text, one by one.
fn all_text(bytes: &[u8]) -> bool
    ensures { result ≡ list_all is_text_byte bytes.now }
{
    let mut all = true;
    for byte in bytes {
        all &= (*byte == b'\t') | (byte.wrapping_sub(32) <= 94);
    }
    all
}
