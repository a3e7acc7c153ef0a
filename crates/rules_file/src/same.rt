// Whether two words are the same, quickly where they are short.
ghost use Rattle.std.specs.Prelude.{◌≡◌, ◌+◌, ◌≤◌, length, take, drop};
ghost use Rattle.std.specs.Int.{w32, from_le_bytes};
ghost use Rattle.std.specs.Str.{bytes_eq};

// Whether two words are the same. Those of 4 to 8 bytes are compared by their first four and their last four.
#[inline(always)]
pub(crate) fn is_same(a: &[u8], b: &[u8]) -> bool
    ensures { result ≡ bytes_eq a.now b.now }
{
    let n = a.len();
    if n != b.len() {
        return false;
    }
    if n > 8 {
        return a == b;
    }
    if n >= 4 {
        return four_same(a, b, 0) & four_same(a, b, n - 4);
    }
    few_same(a, b)
}

// Whether four bytes are the same in both.
#[inline(always)]
fn four_same(a: &[u8], b: &[u8], i: usize) -> bool
    requires first { i + 4 ≤ length a.now }
    requires second { i + 4 ≤ length b.now }
    ensures { result ≡ bytes_eq (take 4 (drop i a.now)) (take 4 (drop i b.now)) }
{
    four_at(a, i) == four_at(b, i)
}

// Four bytes as one number.
#[inline(always)]
fn four_at(word: &[u8], i: usize) -> u32
    requires { i + 4 ≤ length word.now }
    ensures { result ≡ from_le_bytes w32 (take 4 (drop i word.now)) }
{
    u32::from_le_bytes([word[i], word[i + 1], word[i + 2], word[i + 3]])
}

// Whether two words of fewer than 4 bytes are the same.
#[inline(always)]
fn few_same(a: &[u8], b: &[u8]) -> bool
    ensures { result ≡ bytes_eq a.now b.now }
{
    match (a, b) {
        ([a0, a1], [b0, b1]) => (*a0 == *b0) & (*a1 == *b1),
        _ => a == b,
    }
}
