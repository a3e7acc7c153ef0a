// The texts of numbers and of moments, and copies of short texts.
ghost use Rattle.std.specs.Prelude.{◌≡◌, ◌+◌, ◌/◌, ◌%◌, ◌≤◌, ◌<◌, length};
ghost use Rattle.std.specs.Fmt.{decimal};
ghost use Rattle.mkt_base.specs.Text.{time_text};
ghost use Rattle.mkt_io.specs.declared.text.TheConstants.{DIGITS};

/// How many digits a number has at most.
pub(crate) const DIGITS: usize = 20;

// The digits of each number below 100, as two digits.
const PAIRS: &[u8; 200] =
    b"00010203040506070809101112131415161718192021222324252627282930313233343536373839404142434445464748495051525354555657585960616263646566676869707172737475767778798081828384858687888990919293949596979899";

// How many digits a number has. Four of them are counted at a time, since a division costs most.
#[inline]
pub(crate) fn digit_count(n: u64) -> usize
    ensures count { result ≡ length (decimal n) }
    ensures few { result ≤ DIGITS }
{
    let mut count = 0;
    let mut rest = n;
    while rest >= 10_000 {
        rest /= 10_000;
        count += 4;
    }
    count + short_count(rest as u32)
}

// How many digits a number below 10,000 has.
#[inline]
fn short_count(n: u32) -> usize
    requires { n < 10000 }
    ensures { result ≡ length (decimal n) }
{
    if n < 10 {
        1
    } else if n < 100 {
        2
    } else if n < 1_000 {
        3
    } else {
        4
    }
}

// Writes the digits of a number into as many bytes as there are, two at a time from the last on.
#[inline]
pub(crate) fn write_decimal(n: u64, out: &mut [u8])
    requires { length out.old ≡ length (decimal n) }
    ensures { out.new ≡ decimal n }
{
    let mut at = out.len();
    let mut rest = n;
    while rest >= 100 {
        let pair = (rest % 100) as u32;
        rest /= 100;
        at -= 2;
        out[at] = tens(pair);
        out[at + 1] = ones(pair);
    }
    let last = rest as u32;
    if last >= 10 {
        out[0] = tens(last);
        out[1] = ones(last);
    } else {
        out[0] = digit(last);
    }
}

#[inline(always)]
fn tens(n: u32) -> u8
    requires { n < 100 }
    ensures { result ≡ 48 + n / 10 }
{
    PAIRS[2 * n as usize]
}

#[inline(always)]
fn ones(n: u32) -> u8
    requires { n < 100 }
    ensures { result ≡ 48 + n % 10 }
{
    PAIRS[2 * n as usize + 1]
}

#[inline]
fn digit(n: u32) -> u8
    requires { n < 10 }
    ensures { result ≡ 48 + n }
{
    b'0' + n as u8
}

// A moment of the day, as HH:MM:SS.mmm.
#[inline]
pub(crate) fn moment_text(ms: u32) -> [u8; 12]
    requires { ms < 86400000 }
    ensures { result ≡ time_text ms }
{
    [
        digit(ms / 3_600_000 / 10),
        digit(ms / 3_600_000 % 10),
        b':',
        digit(ms / 60_000 % 60 / 10),
        digit(ms / 60_000 % 60 % 10),
        b':',
        digit(ms / 1_000 % 60 / 10),
        digit(ms / 1_000 % 60 % 10),
        b'.',
        digit(ms % 1_000 / 100),
        digit(ms % 1_000 % 100 / 10),
        digit(ms % 1_000 % 100 % 10),
    ]
}

// Copies a text. One of 2 to 16 bytes is copied by two pieces of a constant length, which may overlap: that is
// faster than a copy whose length the compiler does not know.
#[inline(always)]
pub(crate) fn copy_text(out: &mut [u8], text: &[u8])
    requires { length out.old ≡ length text.now }
    ensures { out.new ≡ text.now }
{
    let n = text.len();
    if n > 16 {
        out.copy_from_slice(text);
    } else if n >= 8 {
        out[..8].copy_from_slice(&text[..8]);
        out[n - 8..].copy_from_slice(&text[n - 8..]);
    } else if n >= 4 {
        out[..4].copy_from_slice(&text[..4]);
        out[n - 4..].copy_from_slice(&text[n - 4..]);
    } else if n >= 2 {
        out[..2].copy_from_slice(&text[..2]);
        out[n - 2..].copy_from_slice(&text[n - 2..]);
    } else if n == 1 {
        out[0] = text[0];
    }
}
