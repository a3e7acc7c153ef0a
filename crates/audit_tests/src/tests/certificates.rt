// Certificates of auctions, as they are, with each digit changed in turn, and changed otherwise.
ghost use Rattle.std.specs.Prelude.{◌≡◌, ◌^◌, ◌<◌, length};
ghost use Rattle.auction_file.specs.AuctionFile.{IsSound};
ghost use Rattle.auction_file.specs.EvenGrid.{grid_prices};
ghost use Rattle.auction_file.specs.Meaning.{merged_of};

use auction_check::{Certificate, check};
use auction_file::AuctionFile;
use mkt_base::{Outcome, Price, Rows, Side, Sums};
use std::alloc::{AllocError, Global};
use std::test::Fail;

const CROSSING: &str =
    "grid 1000 10 11 1050\nbuy 300 market\nbuy 200 1060\nsell 400 1040\nsell 200 1070\n";

const BUYERS: &str = "grid 1000 10 11 1050\nbuy 500 market\nsell 300 1000\n";

const SELLERS: &str = "grid 1000 10 11 1050\nsell 500 market\nbuy 300 1100\n";

const APART: &str = "grid 1000 10 11 1050\nbuy 100 1000\nbuy 200 1020\nsell 100 1080\n";

// Auctions: the file, the first and the last position of the window, and the certificate.
const TRUE: [(&str, u32, u32, &str); 12] = [
    (
        CROSSING,
        0,
        10,
        "rejected 1050 500 500 400 400\nrejected 1040 500 500 400 0\nprice 1060 400 500 300 400 400\n",
    ),
    // The prices that are ruled out need not lie in the window.
    (
        CROSSING,
        5,
        6,
        "rejected 1050 500 500 400 400\nrejected 1040 500 500 400 0\nprice 1060 400 500 300 400 400\n",
    ),
    (CROSSING, 5, 5, "pressed buy 1050 500 400\n"),
    (
        "grid 1000 10 11 1050\nbuy 100 1100\nsell 100 1000\n",
        0,
        10,
        "price 1050 100 100 100 100 100\n",
    ),
    (
        "grid 5 5 3 10\nbuy 3 15\nsell 3 15\n",
        0,
        2,
        "rejected 10 3 3 0 0\nrejected 5 3 3 0 0\nprice 15 3 3 0 3 0\n",
    ),
    (BUYERS, 0, 10, "pressed buy 1100 500 300\n"),
    (BUYERS, 4, 7, "pressed buy 1070 500 300\n"),
    (SELLERS, 0, 10, "pressed sell 1000 500 300\n"),
    (SELLERS, 3, 6, "pressed sell 1030 500 300\n"),
    (APART, 0, 10, "calm 1020 1080\n"),
    (
        "grid 1000 10 11 1050\nsell 7 1100\nsell 1 1020\n",
        0,
        10,
        "calm - 1020\n",
    ),
    ("grid 1000 10 11 1050\n", 0, 10, "calm - -\n"),
];

// The same with certificates that are false.
const FALSE: [(&str, u32, u32, &str); 14] = [
    // A line left out, doubled, exchanged or too many.
    (
        CROSSING,
        0,
        10,
        "rejected 1050 500 500 400 400\nprice 1060 400 500 300 400 400\n",
    ),
    (
        CROSSING,
        0,
        10,
        "rejected 1040 500 500 400 0\nprice 1060 400 500 300 400 400\n",
    ),
    (CROSSING, 0, 10, "price 1060 400 500 300 400 400\n"),
    (
        CROSSING,
        0,
        10,
        "rejected 1050 500 500 400 400\nrejected 1050 500 500 400 400\nrejected 1040 500 500 400 0\nprice 1060 400 500 300 400 400\n",
    ),
    (
        CROSSING,
        0,
        10,
        "rejected 1040 500 500 400 0\nrejected 1050 500 500 400 400\nprice 1060 400 500 300 400 400\n",
    ),
    (
        CROSSING,
        0,
        10,
        "rejected 1050 500 500 400 400\nrejected 1040 500 500 400 0\nrejected 1060 500 300 400 400\nprice 1060 400 500 300 400 400\n",
    ),
    (
        BUYERS,
        0,
        10,
        "rejected 1050 500 500 300 300\npressed buy 1100 500 300\n",
    ),
    (APART, 0, 10, "rejected 1050 0 0 0 0\ncalm 1020 1080\n"),
    // Another price that meets the conditions, and is not as near; and another that does not.
    (
        "grid 1000 10 11 1050\nbuy 100 1100\nsell 100 1000\n",
        0,
        10,
        "rejected 1050 100 100 100 100\nprice 1040 100 100 100 100 100\n",
    ),
    (CROSSING, 0, 10, "price 1050 400 500 500 400 400\n"),
    // Another kind of outcome, or the other side.
    (CROSSING, 0, 10, "calm - -\n"),
    (BUYERS, 0, 10, "pressed sell 1100 500 300\n"),
    (APART, 0, 10, "calm 1020 -\n"),
    (APART, 0, 10, "pressed buy 1100 0 100\n"),
];

// The numbers of a line behind its first word, six at most; 0 stands for what is no number.
fn numbers_of(line: &str) -> [u64; 6] {
    let mut numbers = [0; 6];
    let mut left = line;
    for number in numbers.iter_mut() {
        let Some((_, more)) = left.split_once(" ") else {
            break;
        };
        let word = more.split_once(" ").map_or(more, |cut| cut.0);
        *number = word.parse::<u64>().unwrap_or(0);
        left = more;
    }
    numbers
}

fn price(number: u64) -> Price {
    Price(u32::try_from(number).unwrap_or(0))
}

// A price that may be lacking.
fn limit(number: u64) -> Option<Price> {
    if number == 0 {
        return None;
    }
    Some(price(number))
}

// The sums of a line that rules a price out.
fn rejected_of(line: &str) -> Option<Sums> {
    let line = line.strip_prefix("rejected")?;
    let [at, buys, above, sells, below, _] = numbers_of(line);
    Some(Sums {
        price: price(at),
        buys,
        above,
        sells,
        below,
    })
}

// The outcome of a line.
fn outcome_of(line: &str) -> Option<Outcome> {
    let [first, second, third, fourth, fifth, sixth] = numbers_of(line);
    let (word, more) = line.split_once(" ")?;
    match word {
        "price" => Some(Outcome::Traded {
            volume: second,
            sums: Sums {
                price: price(first),
                buys: third,
                above: fourth,
                sells: fifth,
                below: sixth,
            },
        }),
        "calm" => Some(Outcome::Calm {
            bid: limit(first),
            ask: limit(second),
        }),
        "pressed" => Some(Outcome::Pressed {
            side: if more.starts_with("buy ") {
                Side::Buy
            } else {
                Side::Sell
            },
            price: price(second),
            pressing: third,
            facing: fourth,
        }),
        _ => None,
    }
}

// The prices of a text that are ruled out.
fn rows_of(alloc: Global, text: &str) -> Result<Rows<Sums>, AllocError> {
    let mut rows = Vec::new(alloc);
    for line in text.lines() {
        if let Some(sums) = rejected_of(line) {
            rows.push(sums)?;
        }
    }
    Ok(Rows::new(rows))
}

// Whether the certificate of this text is true of the auction over a window.
fn is_true(
    alloc: Global,
    file: &AuctionFile,
    prices: &[Price],
    window: (u32, u32),
    text: &str,
) -> Result<bool, Fail>
    requires sound { IsSound (merged_of file.now) }
    requires prices { prices.now ≡ grid_prices file.now.grid }
{
    let last = text.lines().last().ok_or("no line")?;
    let outcome = outcome_of(last).ok_or("no outcome")?;
    let rejected = rows_of(alloc, text)?;
    let certificate = Certificate {
        reference: file.reference,
        lo: window.0,
        hi: window.1,
        rejected,
        outcome,
    };
    Ok(check(&certificate, file.levels.as_slice(), prices))
}

// The next digit, and 0 behind 9; none where it is no digit.
fn other_digit(digit: char) -> Option<&'static str> {
    match digit {
        '0' => Some("1"),
        '1' => Some("2"),
        '2' => Some("3"),
        '3' => Some("4"),
        '4' => Some("5"),
        '5' => Some("6"),
        '6' => Some("7"),
        '7' => Some("8"),
        '8' => Some("9"),
        '9' => Some("0"),
        _ => None,
    }
}

// The text with another digit at a place; none where no digit stands there.
fn with_digit(alloc: Global, text: &str, at: usize) -> Result<Option<String>, AllocError> {
    let (Some(front), Some(back)) = (text.get(..at), text.get(at..)) else {
        return Ok(None);
    };
    let mut behind = back.chars();
    let Some(digit) = behind.next().and_then(other_digit) else {
        return Ok(None);
    };
    let mut other = String::from_str(alloc, front)?;
    other.push_str(digit)?;
    other.push_str(behind.as_str())?;
    Ok(Some(other))
}

// Whether a certificate is true of the auction of a file, and how many of those with a digit changed are.
fn judged(
    alloc: Global,
    file: &AuctionFile,
    prices: &[Price],
    window: (u32, u32),
    text: &str,
) -> Result<(bool, u32), Fail>
    requires sound { IsSound (merged_of file.now) }
    requires prices { prices.now ≡ grid_prices file.now.grid }
{
    let found = is_true(alloc, file, prices, window, text)?;
    let mut count = 0u32;
    for at in 0..text.len() {
        let Some(other) = with_digit(alloc, text, at)? else {
            continue;
        };
        if is_true(alloc, file, prices, window, other.as_str())? {
            count = count.saturating_add(1);
        }
    }
    Ok((found, count))
}

// The same over a file that is read.
fn verdicts(alloc: Global, file: &[u8], window: (u32, u32), text: &str) -> Result<(bool, u32), Fail>
    requires { length file.now < 2 ^ 32 }
{
    let Ok(file) = AuctionFile::read(alloc, file) else {
        return Err("refused")?;
    };
    let Ok(prices) = file.grid.prices(alloc) else {
        return Err("no memory")?;
    };
    judged(alloc, &file, prices.as_slice(), window, text)
}

#[test]
fn true_certificates(rt: HostRuntime) -> Result<(), Fail> {
    for (file, lo, hi, text) in TRUE {
        assert!(rt; file.len() < 1000);
        let found = verdicts(rt.alloc(), file.as_bytes(), (lo, hi), text)?;
        assert_eq!(rt; found, (true, 0), "at {file}{text}");
    }
    Ok(())
}

#[test]
fn false_certificates(rt: HostRuntime) -> Result<(), Fail> {
    for (file, lo, hi, text) in FALSE {
        assert!(rt; file.len() < 1000);
        let found = verdicts(rt.alloc(), file.as_bytes(), (lo, hi), text)?;
        assert_eq!(rt; found, (false, 0), "at {file}{text}");
    }
    Ok(())
}
