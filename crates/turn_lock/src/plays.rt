//! What each kind of step tells its pass, and how views are split and joined.
ghost use Rattle.turn_lock.specs.Steps.{drawn, looked, raised, passed_on, counted, told};
ghost use Rattle.turn_lock.specs.Views.{giving, part_of, joined, meeting, spent};

use crate::kept::{Adds, Kept};
use crate::view::View;
use atomic_table::{Join, Play, Split};
use std::marker::{Brand, PhantomData};

/// A try at a ticket.
pub(crate) struct Draw;

impl<V, E> Play<Option<V>, View<E>> for Draw {
    ghost then = { drawn };
}

/// A look at the ticket that is served.
pub(crate) struct Look<V> {
    kept: PhantomData<V>,
}

impl<V: Kept> Play<Option<V>, View<V::Entry>> for Look<V> {
    ghost then = { looked V.stands V.mark };
}

/// One entry more, which `N` names.
pub(crate) struct Raise<V, N> {
    kept: PhantomData<V>,
    entry: PhantomData<N>,
}

impl<V: Kept, N: Adds<V::Entry>> Play<Option<V>, View<V::Entry>> for Raise<V, N> {
    ghost then = { raised N.adds V.mark };
}

/// The next ticket is served.
pub(crate) struct PassOn<V> {
    kept: PhantomData<V>,
}

impl<V: Kept> Play<Option<V>, View<V::Entry>> for PassOn<V> {
    ghost then = { passed_on V.mark };
}

/// A look at the number of entries.
pub(crate) struct Count;

impl<V, E> Play<Option<V>, View<E>> for Count {
    ghost then = { counted };
}

/// A look at the number of entries, which tells what was met.
pub(crate) struct Tell;

impl<V, E> Play<Option<V>, View<E>> for Tell {
    ghost then = { told };
}

/// Names the mark that a split gives, or none.
pub(crate) trait Marks {
    ghost use Rattle.std.specs.Prelude.{ℕ, Option};

    ghost mark: { Option ℕ };
}

impl Marks for Brand {
    ghost use Rattle.std.specs.Prelude.{None};

    ghost mark = { None };
}

/// A split, which gives the mark that `M` names.
pub(crate) struct SplitView<M> {
    mark: PhantomData<M>,
}

impl<E, M: Marks> Split<View<E>> for SplitView<M> {
    ghost left = { giving M.mark };

    ghost right = { part_of M.mark };
}

/// A join.
pub(crate) struct JoinViews;

impl<E> Join<View<E>> for JoinViews {
    ghost both = { joined };

    ghost spent = { spent };
}

/// A join to a pass that has its turn, which only meets what the other had seen.
pub(crate) struct MeetViews;

impl<E> Join<View<E>> for MeetViews {
    ghost both = { λ v w. meeting w v };

    ghost spent = { spent };
}
