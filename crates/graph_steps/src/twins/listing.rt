//! The twins of one model.

ghost use Rattle.std.specs.Iterator.{YieldsFirstRef, item_count};
ghost use Rattle.graph_steps.specs.twins.Machinery.Keeping.{twins_under};

use crate::twins::held::Held;
use dt_base::Text;
use std::collections::BTreeMap;
use std::collections::btree_map::Range;
use std::marker::Model;
use twin_value::Twin;

/// The twins of one model, in the order of their ids, each of which is found without looking at others.
#[derive(Drop)]
pub struct OfModel<'a> {
    pub(crate) twins: &'a BTreeMap<Text, Held>,
    pub(crate) ids: Option<Range<'a, Text, ()>>,
}

impl<'a> Model for OfModel<'a> {
    ghost use Rattle.std.specs.Prelude.{List};
    ghost use Rattle.std.specs.Coded.{coded_list};
    ghost use Rattle.twin_value.specs.contracts.twin.Twin as twin;
    ghost use Rattle.twin_value.specs.declared.twin.Twin.{Twin};

    ghost Value = { List Twin };

    ghost coded = { coded_list twin.the_row.coded };

    ghost use Rattle.std.specs.Prelude.{[], unwrap_or};
    ghost use Rattle.graph_steps.specs.twins.Machinery.Keeping.{twins_under};

    ghost view = { λ l. twins_under l.twins.now.entries (unwrap_or l.ids []) };
}

/// The twin of the next id that has one.
fn next_twin<'a>(twins: &'a BTreeMap<Text, Held>, ids: &mut Range<'a, Text, ()>) -> Option<&'a Twin>
    ensures { YieldsFirstRef (λ s. twins_under twins.now.entries s) ids.old result ids.new }
{
    while let Some((id, _)) = ids.next() {
        if let Some(held) = twins.get(id) {
            return Some(&held.twin);
        }
    }
    None
}

impl<'a> Iterator for OfModel<'a> {
    type Item = &'a Twin;

    ghost next_gives = { YieldsFirstRef (λ s. s) };

    ghost remaining = { item_count (λ s. s) };

    fn next(&mut self) -> Option<&'a Twin> {
        match &mut self.ids {
            Some(ids) => next_twin(self.twins, ids),
            None => None,
        }
    }
}
