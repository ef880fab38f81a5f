//! The rule of the table.
use crate::history::View;
use atomic_table::TableRule;
use dt_base::Object;
use std::marker::PhantomData;
use std::snapshot::Snapshot;

/// One history, and the queue before the object. Word 0 is `drawn`, how many tickets were drawn, and
/// word 1 is `serving`, the ticket that is served. The one slot has the object.
pub struct Law<O> {
    of: PhantomData<O>,
}

impl<O: Object> TableRule<Option<O>, View<O, O::Ask, O::Reply>, Snapshot<O>> for Law<O> {
    ghost use Rattle.std.specs.Prelude.{[]};
    ghost use Rattle.one_history.specs.Machinery.Rules.{Kept, alone, newcomer};

    ghost holds = { λ key. Kept O.state O.sound O.allowed O.follows key.value };

    ghost first = { λ key. alone (newcomer key.value) };
}
