// A sink that compares.
ghost use Rattle.std.specs.Prelude.{◌≡◌, ◌≢◌, ◌+◌, ◌<◌, ◌≤◌, ℕ, List, [], Some, None, length, take, slice_get, slice_index};
ghost use Rattle.std.specs.Option.{ForSome};
ghost use Rattle.text_match.specs.Matched.{IsComparison, WasHanded, known};

use crate::line::count_lines;
use mkt_io::{Failed, Sink};

/// Whether a text is what was asked for; and else its first line, counted from 1, that is not.
#[derive(Clone, Copy, Debug, PartialEq, Eq)]
pub enum Verdict {
    Yes,
    No { line: u64 },
}

/// A sink that holds what is written to it against a text. It takes bytes as long as they are those of the text, and one byte that is
/// not; from then on each call fails.
#[derive(Drop)]
pub struct Matcher<'a> {
    text: &'a [u8],
    // How many bytes of the text were written.
    at: usize,
    // The byte that is not that of the text.
    odd: Option<u8>,
    faults: u64,
    ghost within: { at ≤ length text.now },
    ghost differs: { ForSome odd (λ b. slice_get text.now at ≢ Some b) },
    ghost cause: { odd ≡ None → faults ≡ 0 },
}

impl<'a> Sink for Matcher<'a> {
    ghost use Rattle.std.specs.Prelude.{Some};
    ghost use Rattle.text_match.specs.Matched.{known, taken};

    ghost contents = { λ m. Some (known m.text.now (taken m.at m.text.now m.odd)) };

    ghost faults = { λ m. m.faults };

    fn write(&mut self, piece: &[u8]) -> Result<usize, Failed> {
        if self.odd.is_some() {
            self.faults = self.faults.saturating_add(1);
            return Err(Failed);
        }
        let n = common(self.text.split_at(self.at).1, piece);
        if n == 0 {
            self.odd = Some(piece[0]);
            return Ok(1);
        }
        self.at += n;
        Ok(n)
    }
}

impl<'a> Matcher<'a> {
    /// A sink that holds what is written to it against this text, before anything is written.
    pub fn new(text: &'a [u8]) -> Matcher<'a>
        ensures contents { ⟦<Matcher<'a> as Sink>⟧.contents result ≡ Some (known text.now []) }
        ensures faults { ⟦<Matcher<'a> as Sink>⟧.faults result ≡ 0 }
    {
        Matcher {
            text,
            at: 0,
            odd: None,
            faults: 0,
        }
    }

    /// Whether the text is the one that was written, where that was written whole or up to a fault; and else the first line of it that
    /// was not written whole.
    pub fn verdict(&self) -> Verdict
        ensures { (text other : List ℕ)
            → WasHanded text other (⟦<Matcher<'a> as Sink>⟧.contents self.now) (⟦<Matcher<'a> as Sink>⟧.faults self.now)
            → IsComparison text other result }
    {
        if self.odd.is_none() && self.at == self.text.len() {
            return Verdict::Yes;
        }
        let line = count_lines(self.text.split_at(self.at).0) + 1;
        Verdict::No { line }
    }
}

// How many bytes two texts have in common at their fronts.
fn common(a: &[u8], b: &[u8]) -> usize
    ensures within_a { result ≤ length a.now }
    ensures within_b { result ≤ length b.now }
    ensures same { take result a.now ≡ take result b.now }
    ensures most { result < length a.now → result < length b.now → slice_index a.now result ≢ slice_index b.now result }
{
    if a.len() >= b.len() && a.split_at(b.len()).0 == b {
        return b.len();
    }
    let mut n = 0;
    while n < a.len() && n < b.len() && a[n] == b[n] {
        n += 1;
    }
    n
}
