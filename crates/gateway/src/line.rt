// One line of a script, done at its desk.
ghost use Rattle.std.specs.Prelude.{◌≡◌, ◌<◌, [], ◌∷◌, true, length, count_by, vec_len, vec_capacity};
ghost use Rattle.gateway.specs.Ran.{Deed, Did, IsTaken, is_read, is_show};

use mkt_base::{Act, Caller, Desk, ScriptLine, ShowLine};
use std::sync::Wait;

// The act reads the board.
fn is_read(act: &Act) -> bool
    ensures { result ≡ is_read act.now }
{
    match act {
        Act::Do(_) => false,
        Act::Show => true,
    }
}

// How many lines read a board.
pub(crate) fn count_reads(lines: &[ScriptLine]) -> usize
    ensures { result ≡ count_by is_show lines.now }
{
    lines.iter().filter(|line| is_read(&line.act)).count()
}

// A line is done: its event is submitted at the desk of its issue, or the board that this desk shows is kept.
pub(crate) fn do_line<W: Wait, D: Desk>(
    rt: &W,
    desks: &mut [D],
    gateway: Caller,
    line: &ScriptLine,
    shows: &mut Vec<ShowLine>,
)
    requires desk { line.now.issue < length desks.old }
    requires takes { IsTaken D.takes D.fixed desks.old line.now }
    requires room { is_show line.now ≡ true → vec_len shows.old < vec_capacity shows.old }
    ensures did { (x : Deed) × (x.line ≡ line.now)
        × Did D.state D.fixed D.tells gateway (x ∷ []) shows.old.items shows.new.items desks.old desks.new }
    ensures room { vec_capacity shows.new ≡ vec_capacity shows.old }
{
    let desk = &mut desks[usize::from(line.issue)];
    match &line.act {
        Act::Do(event) => {
            let _ = desk.submit(rt, *event);
        }
        Act::Show => {
            let board = desk.show(rt);
            shows.push_reserved(ShowLine {
                line: line.line,
                gateway,
                issue: line.issue,
                board,
            });
        }
    }
}
