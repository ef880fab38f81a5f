//! What each kind of step tells.
use crate::history::View;
use atomic_table::{Join, Play, Split};
use dt_base::Object;
use std::marker::{Brand, PhantomData};

/// Which ask and which reply an entry has. The proof of a call picks it.
pub trait Told<A, R> {
    ghost told: { A → R → Type 0 };
}

impl<A, R> Told<A, R> for Brand {
    ghost told = { λ ask reply. Unit {0} };
}

/// A ticket is drawn, where the word is the one expected.
pub(crate) struct Draw;

impl<O, A, R> Play<Option<O>, View<O, A, R>> for Draw {
    ghost use Rattle.one_history.specs.Machinery.Plays.{drew};

    ghost then = { drew };
}

/// A look at the ticket that is served, by one who waits.
pub(crate) struct Await<O> {
    of: PhantomData<O>,
}

impl<O: Object> Play<Option<O>, View<O, O::Ask, O::Reply>> for Await<O> {
    ghost use Rattle.one_history.specs.Machinery.Plays.{awaited};

    ghost then = { awaited O.state O.sound O.allowed O.follows };
}

/// A look by one who has no ticket, after which its pass has seen the history so far.
pub(crate) struct Look<O> {
    of: PhantomData<O>,
}

impl<O: Object> Play<Option<O>, View<O, O::Ask, O::Reply>> for Look<O> {
    ghost use Rattle.one_history.specs.Machinery.Plays.{looked};

    ghost then = { looked O.state O.sound O.allowed O.follows };
}

/// A look that changes no view.
pub(crate) struct Check<O> {
    of: PhantomData<O>,
}

impl<O: Object> Play<Option<O>, View<O, O::Ask, O::Reply>> for Check<O> {
    ghost use Rattle.one_history.specs.Machinery.Plays.{checked};

    ghost then = { checked O.state O.sound O.allowed O.follows };
}

/// The next ticket is served, and the history has an entry more.
pub(crate) struct Enter<E> {
    entry: PhantomData<E>,
}

impl<O, A, R, E: Told<A, R>> Play<Option<O>, View<O, A, R>> for Enter<E> {
    ghost use Rattle.one_history.specs.Machinery.Plays.{entered};

    ghost then = { entered E.told };
}

/// The next ticket is served, and the history is as it was.
pub(crate) struct Leave;

impl<O, A, R> Play<Option<O>, View<O, A, R>> for Leave {
    ghost use Rattle.one_history.specs.Machinery.Plays.{left};

    ghost then = { left };
}

/// A pass of a new number beside the old one.
pub(crate) struct Cut;

impl<O, A, R> Split<View<O, A, R>> for Cut {
    ghost use Rattle.one_history.specs.Machinery.Rules.{parent, child};

    ghost left = { parent };

    ghost right = { child };
}

/// A note of what a pass has seen.
pub(crate) struct Note;

impl<O, A, R> Split<View<O, A, R>> for Note {
    ghost use Rattle.one_history.specs.Machinery.Rules.{note};

    ghost left = { λ d. d };

    ghost right = { note };
}

/// One seat stands for the passes of two, and has both their notes.
pub(crate) struct Merge;

impl<O, A, R> Join<View<O, A, R>> for Merge {
    ghost use Rattle.one_history.specs.Machinery.Rules.{merged, spent};

    ghost both = { merged };

    ghost spent = { spent };
}
