// An auction over the levels of a file, and the same by a scan of every price.
ghost use Rattle.std.specs.Prelude.{◌≡◌, ◌^◌, ◌<◌, length};
ghost use Rattle.auction_file.specs.AuctionFile.{IsSound};
ghost use Rattle.auction_file.specs.EvenGrid.{grid_prices};
ghost use Rattle.auction_file.specs.Meaning.{merged_of};

use auction_check::check;
use auction_file::AuctionFile;
use mkt_base::Price;
use std::alloc::Global;
use std::test::Fail;

// The next number of a sequence that looks like chance.
fn next_drawn(last: u64) -> u64 {
    last.wrapping_mul(6_364_136_223_846_793_005)
        .wrapping_add(1_442_695_040_888_963_407)
}

// The file of a grid of eight prices and nine orders, a line of 20 bytes and nine of 16, drawn from a number.
fn text_drawn(from: u64) -> [u8; 164] {
    let mut text = [b' '; 164];
    text[..20].copy_from_slice(b"grid 1000 10 8 1030\n");
    text[17] = b"01234567"[(from % 8) as usize];
    let mut drawn = from;
    for i in 0..9 {
        drawn = next_drawn(drawn);
        let line = 20 + 16 * i;
        text[line..line + 16].copy_from_slice(&order_drawn((drawn >> 40) as u32));
    }
    text
}

// The line of an order.
fn order_drawn(bits: u32) -> [u8; 16] {
    let mut line = *b"buy  100 market\n";
    if bits % 2 == 0 {
        line[..4].copy_from_slice(b"sell");
    }
    line[5] = b"123456789"[(bits / 32 % 9) as usize];
    let position = (bits / 2 % 9) as usize;
    if position < 8 {
        line[9..15].copy_from_slice(b"1000  ");
        line[11] = b"01234567"[position];
    }
    line
}

// Whether both gather the same certificate, and it is true.
fn agree(alloc: Global, file: &AuctionFile, prices: &[Price]) -> bool
    requires sound { IsSound (merged_of file.now) }
    requires prices { prices.now ≡ grid_prices file.now.grid }
{
    let last = file.grid.count() - 1;
    let orders = file.levels.as_slice();
    let Ok(walked) = level_auction::gather(alloc, &file.levels, prices, file.reference) else {
        return false;
    };
    let Ok(scanned) = auction_check::gather(alloc, orders, prices, file.reference, 0, last) else {
        return false;
    };
    walked.outcome == scanned.outcome
        && walked.rejected.as_slice() == scanned.rejected.as_slice()
        && walked.hi == scanned.hi
        && check(&walked, orders, prices)
}

// Whether they agree on the file of this text.
fn agree_on(alloc: Global, text: &[u8]) -> Result<bool, &'static str>
    requires { length text.now < 2 ^ 32 }
{
    let Ok(file) = AuctionFile::read(alloc, text) else {
        return Err("refused");
    };
    let Ok(prices) = file.grid.prices(alloc) else {
        return Err("no memory");
    };
    Ok(agree(alloc, &file, prices.as_slice()))
}

#[test]
fn a_walk_answers_as_a_scan(rt: HostRuntime) -> Result<(), Fail> {
    for number in 0..100u64 {
        let text = text_drawn(number);
        let agreed = agree_on(rt.alloc(), &text[..20 + 16 * (number % 10) as usize])?;
        assert!(rt; agreed, "{number}");
    }
    Ok(())
}
