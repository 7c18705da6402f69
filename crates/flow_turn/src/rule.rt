//! The rule of the table behind a lock, and what its steps tell.
ghost use Rattle.flow_turn.specs.Turns.{IsInTurns, root_view};
ghost use Rattle.flow_turn.specs.Steps.{drew, looked, counted, passed, settled, giving, given_view, taking, joined_view};

use crate::kept::Kept;
use crate::view::View;
use atomic_table::{Join, Play, Split, TableRule};
use std::marker::PhantomData;
use std::snapshot::Snapshot;

/// The table is told the first value, of which the rule takes the fixed part.
pub(crate) struct TurnRule<T> {
    value: PhantomData<T>,
}

impl<T: Kept> TableRule<Option<T>, View<<T as Kept>::Entry, <T as Kept>::Fixed>, Snapshot<T>>
    for TurnRule<T> {
    ghost holds = { λ key. IsInTurns T.entries T.caller T.fixed (T.fixed key.value) };

    ghost first = { λ key. root_view (T.fixed key.value) };
}

/// A ticket is drawn.
pub(crate) struct Draw;

impl<T: Kept> Play<Option<T>, View<<T as Kept>::Entry, <T as Kept>::Fixed>> for Draw {
    ghost then = { λ _ m found n. drew m found n };
}

/// A look at the ticket that is served.
pub(crate) struct Look;

impl<T: Kept> Play<Option<T>, View<<T as Kept>::Entry, <T as Kept>::Fixed>> for Look {
    ghost then = { λ _ m found n. looked T.entries T.caller T.fixed m found n };
}

/// The entries added in this turn are counted.
pub(crate) struct Count;

impl<T: Kept> Play<Option<T>, View<<T as Kept>::Entry, <T as Kept>::Fixed>> for Count {
    ghost then = { λ _ m _ n. counted T.entries m n };
}

/// The turn is passed on.
pub(crate) struct PassOn;

impl<T: Kept> Play<Option<T>, View<<T as Kept>::Entry, <T as Kept>::Fixed>> for PassOn {
    ghost then = { λ _ m _ n. passed m n };
}

/// What a joined pass had seen is taken in.
pub(crate) struct Settle;

impl<T: Kept> Play<Option<T>, View<<T as Kept>::Entry, <T as Kept>::Fixed>> for Settle {
    ghost then = { λ _ m _ n. settled m n };
}

/// A pass is split from the root.
pub(crate) struct Cut;

impl<E, F> Split<View<E, F>> for Cut {
    ghost left = { giving };

    ghost right = { given_view };
}

/// A pass is joined into the root.
pub(crate) struct Mend;

impl<E, F> Join<View<E, F>> for Mend {
    ghost both = { taking };

    ghost spent = { joined_view };
}
