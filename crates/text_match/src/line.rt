// The lines of a text that LF ends.
ghost use Rattle.std.specs.Prelude.{◌≡◌, ◌<◌, ◌≤◌, ◌+◌, [], ◌∷◌, length, MatchOption};
ghost use Rattle.text_match.specs.Lines.{lines_of};

use memchr::memchr;

/// The first line of a text, without its LF, and what stands behind it; none where no LF is left.
pub fn next_line(text: &[u8]) -> Option<(&[u8], &[u8])>
    ensures { MatchOption result (lines_of text.now ≡ []) (λ parts.
        (lines_of text.now ≡ parts.0.now ∷ lines_of parts.1.now) × (length parts.1.now < length text.now)) }
{
    match memchr(b'\n', text) {
        Some(end) => Some((&text[..end], &text[end + 1..])),
        None => None,
    }
}

// How many lines LF ends.
pub(crate) fn count_lines(bytes: &[u8]) -> u64
    ensures count { result ≡ length (lines_of bytes.now) }
    ensures few { result ≤ length bytes.now }
{
    let mut n = 0;
    for b in bytes {
        if *b == b'\n' {
            n += 1;
        }
    }
    n
}
