//! Elements where they are, in the order of their names.

ghost use Rattle.std.specs.Prelude.{◌≡◌, List, map, IfOk, OnOk};
ghost use Rattle.canon_text.specs.Sorting.{sorted_by};
ghost use Rattle.canon_print.specs.Machinery.Lent.{values_now};

use crate::named::Named;
use dt_base::OutOfMemory;
use std::alloc::Global;

/// The elements where they are.
fn lent<'a, T: Named>(alloc: Global, items: &'a [T]) -> Result<Vec<&'a T>, OutOfMemory>
    ensures { IfOk result (λ list. values_now list.items ≡ items.now) }
{
    let mut list = Vec::with_capacity(alloc, items.len())?;
    for item in items {
        list.push(item)?;
    }
    Ok(list)
}

/// Puts elements into the order of their names.
fn sort_lent<T: Named>(list: &mut Vec<&T>) -> Result<(), OutOfMemory>
    ensures { OnOk result (values_now list.new.items ≡ sorted_by T.name_of (values_now list.old.items)) }
{
    list.sort_by(|a, b| a.name().cmp(b.name()))?;
    Ok(())
}

/// The elements where they are, in the order of their names.
pub(crate) fn in_order<'a, T: Named>(
    alloc: Global,
    items: &'a [T],
) -> Result<Vec<&'a T>, OutOfMemory>
    ensures { IfOk result (λ list. values_now list.items ≡ sorted_by T.name_of items.now) }
{
    let mut list = lent(alloc, items)?;
    sort_lent(&mut list)?;
    Ok(list)
}
