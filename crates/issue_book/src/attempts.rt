// The attempt over a window, for who counts no sum reads.
ghost use Rattle.std.specs.Prelude.{◌≡◌, ℕ, ◌<◌, IsTrue, length};
ghost use Rattle.mkt_base.specs.Book.{price_at};
ghost use Rattle.auction_law.specs.Attempt.{attempt as attempt_outcome, meets};
ghost use Rattle.book_law.specs.BookView.{orders};
ghost use Rattle.itayose.specs.Answer.{IsOnPositions, outcome_of};
ghost use Rattle.issue_book.specs.Holding.{IsWindow};

use crate::Window;
use depth_index::Steps;
use itayose::Attempt;
use order_book::Book;
use std::sync::ledger::{Blank, Ledger};
use tick_grid::Grid;

// What an attempt over a window answers. The blank becomes a counter, which is dropped.
pub(crate) fn uncounted<L: Ledger>(
    book: &Book,
    grid: &Grid,
    window: &Window,
    blank: Blank,
) -> Attempt
    requires name { blank.name ≡ L.name }
    requires parts { blank.parts ≡ L.parts }
    requires some { 0 < blank.parts }
    requires size { length grid.now ≡ book.now.prices }
    requires window { IsWindow grid.now window.now }
    ensures positions { IsOnPositions grid.now result }
    ensures answer { outcome_of grid.now (orders book.now) window.now.lo window.now.hi result
        ≡ attempt_outcome grid.now (orders book.now) (price_at grid.now window.now.reference) (price_at grid.now window.now.lo) (price_at grid.now window.now.hi) }
    ensures meets { (at volume : ℕ) → result ≡ Attempt.Traded at volume → IsTrue (meets grid.now (orders book.now) (price_at grid.now at)) }
{
    let mut steps = Steps::<L>::new(blank);
    itayose::attempt(
        book,
        grid,
        window.reference,
        window.lo,
        window.hi,
        &mut steps,
    )
}
