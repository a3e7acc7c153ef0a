// The rule of the cell's table, and the names of its steps.
ghost use Rattle.turn_cell.specs.Marks.{marks_by};
ghost use Rattle.turn_cell.specs.Views.{first_view, spent, lessened, newcomer, joined};
ghost use Rattle.turn_cell.specs.Rule.{Line};
ghost use Rattle.turn_cell.specs.Steps as step;

use crate::TurnValue;
use crate::view::View;
use atomic_table::{Join, Play, Split, TableRule};
use std::marker::PhantomData;
use std::snapshot::Snapshot;

/// The rule. The table is told the number of callers, and the value that it begins with.
pub struct Turns<V> {
    value: PhantomData<V>,
}

impl<V: TurnValue> TableRule<Option<V>, View<V::Fixed>, (u16, Snapshot<V>)> for Turns<V> {
    ghost holds = { λ key. Line (marks_by V.entries V.halt) V.fixed key.0 (V.fixed key.1.value) };

    ghost first = { λ key. first_view key.0 (V.fixed key.1.value) };
}

/// Draws a ticket.
pub struct Draw<V> {
    value: PhantomData<V>,
}

impl<V: TurnValue> Play<Option<V>, View<V::Fixed>> for Draw<V> {
    ghost then = { step.draws (marks_by V.entries V.halt) V.fixed };
}

/// Looks whether the ticket is served, and takes the turn if it is.
pub struct Look<V> {
    value: PhantomData<V>,
}

impl<V: TurnValue> Play<Option<V>, View<V::Fixed>> for Look<V> {
    ghost then = { step.looks (marks_by V.entries V.halt) V.fixed };
}

/// Notes the number that is served, for a try.
pub struct Note<V> {
    value: PhantomData<V>,
}

impl<V: TurnValue> Play<Option<V>, View<V::Fixed>> for Note<V> {
    ghost then = { step.notes (marks_by V.entries V.halt) V.fixed };
}

/// Tries to draw the ticket of the number that was noted, and takes the turn if it is free.
pub struct Try<V> {
    value: PhantomData<V>,
}

impl<V: TurnValue> Play<Option<V>, View<V::Fixed>> for Try<V> {
    ghost then = { step.tries (marks_by V.entries V.halt) V.fixed };
}

/// Counts the marks that the turn has added.
pub struct Count<V> {
    value: PhantomData<V>,
}

impl<V: TurnValue> Play<Option<V>, View<V::Fixed>> for Count<V> {
    ghost then = { step.counts (marks_by V.entries V.halt) V.fixed };
}

/// Gives the turn to the next ticket.
pub struct Serve<V> {
    value: PhantomData<V>,
}

impl<V: TurnValue> Play<Option<V>, View<V::Fixed>> for Serve<V> {
    ghost then = { step.serves (marks_by V.entries V.halt) V.fixed };
}

/// Tells what the rule knows after a split or a join.
pub struct Learn<V> {
    value: PhantomData<V>,
}

impl<V: TurnValue> Play<Option<V>, View<V::Fixed>> for Learn<V> {
    ghost then = { step.learns (marks_by V.entries V.halt) V.fixed };
}

/// The first caller of the block gets a view of its own.
pub struct Part;

impl<F> Split<View<F>> for Part {
    ghost left = { lessened };

    ghost right = { newcomer };
}

/// A view ends in another one.
pub struct Meet;

impl<F> Join<View<F>> for Meet {
    ghost both = { joined };

    ghost spent = { spent };
}
