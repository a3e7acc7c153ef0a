// The words of times, which are read.
ghost use Rattle.std.specs.Prelude.{◌≡◌, ◌<◌, IfSome, slice_index};
ghost use Rattle.mkt_io.specs.Time.{PrintedMomentsReadBack, digit_of, millis_of, part_at, time_of, two_at};

use mkt_base::Moment;

/// The moment of a time word, HH:MM:SS or HH:MM:SS.mmm: each part has all its digits, the hours are 00 to 23,
/// the minutes and seconds 00 to 59. None where the word is no such word.
#[tactic(auto, unfolding(crate::specs::Time::time_of))]
pub fn time_word(word: &[u8]) -> Option<Moment>
    ensures { result ≡ time_of word.now }
{
    if byte_at(word, 2) != b':' || byte_at(word, 5) != b':' {
        return None;
    }
    let hours = part_at(24, word, 0)?;
    let minutes = part_at(60, word, 3)?;
    let seconds = part_at(60, word, 6)?;
    let ms = millis_of(word)?;
    Moment::new(((hours * 60 + minutes) * 60 + seconds) * 1000 + ms)
}

// The byte at a place, or 0 behind the end.
fn byte_at(word: &[u8], at: usize) -> u8
    ensures { result ≡ slice_index word.now at }
{
    if at < word.len() { word[at] } else { 0 }
}

#[tactic(auto, unfolding(crate::specs::Time::digit_of))]
fn digit_of(byte: u8) -> Option<u32>
    ensures exact { result ≡ digit_of byte }
    ensures within { IfSome result (λ n. n < 10) }
{
    if byte.is_ascii_digit() {
        Some(u32::from(byte - b'0'))
    } else {
        None
    }
}

#[tactic(auto, unfolding(crate::specs::Time::two_at))]
fn two_at(word: &[u8], at: usize) -> Option<u32>
    requires { at < 100 }
    ensures exact { result ≡ two_at word.now at }
    ensures within { IfSome result (λ n. n < 100) }
{
    let tens = digit_of(byte_at(word, at))?;
    let ones = digit_of(byte_at(word, at + 1))?;
    Some(10 * tens + ones)
}

#[tactic(auto, unfolding(crate::specs::Time::part_at))]
fn part_at(limit: u32, word: &[u8], at: usize) -> Option<u32>
    requires { at < 100 }
    ensures exact { result ≡ part_at limit word.now at }
    ensures within { IfSome result (λ n. n < limit) }
{
    let n = two_at(word, at)?;
    if n < limit { Some(n) } else { None }
}

#[tactic(auto, unfolding(crate::specs::Time::millis_of))]
fn millis_of(word: &[u8]) -> Option<u32>
    ensures exact { result ≡ millis_of word.now }
    ensures within { IfSome result (λ n. n < 1000) }
{
    if word.len() == 8 {
        return Some(0);
    }
    if word.len() != 12 || byte_at(word, 8) != b'.' {
        return None;
    }
    let hundreds = digit_of(byte_at(word, 9))?;
    let ones = two_at(word, 10)?;
    Some(100 * hundreds + ones)
}

/// A law: a moment that is printed reads back as itself.
pub fn printed_moments_read_back()
    ensures { PrintedMomentsReadBack }
{}
