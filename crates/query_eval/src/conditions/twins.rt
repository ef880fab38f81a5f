//! The twin that a condition on models names.

ghost use Rattle.std.specs.Prelude.{◌≡◌};
ghost use Rattle.std.specs.Option.{option_copied, option_map};
ghost use Rattle.graph_steps.specs.Conditions.{twin_named, element_is};
ghost use Rattle.query_eval.specs.values.Rows.{element_view, row_view, AreKept};

use crate::conditions::view::GraphView;
use crate::values::{Binding, Element, bound_to};
use dt_base::Text;
use dt_base::names::Dtmi;

/// What an alias is bound to or, without one, the element of the source.
fn element_named<'a>(row: &[Binding<'a>], alias: Option<&Text>) -> Option<Element<'a>>
    requires { AreKept row.now }
    ensures { option_map element_view result ≡ twin_named (row_view row.now) (option_copied alias.entry) }
{
    match alias {
        Some(name) => bound_to(row, name),
        None => match row.split_first() {
            Some((source, _joined)) => Some(source.element),
            None => None,
        },
    }
}

/// Whether an alias, or without one the source, is bound to a twin that is of a model. Takes no memory.
pub(crate) fn twin_is_of<V: GraphView>(
    view: &V,
    row: &[Binding<'_>],
    alias: Option<&Text>,
    model: &Dtmi,
    exact: bool,
) -> bool
    requires { AreKept row.now }
    ensures { result ≡ element_is (V.state view.now) exact model.now (twin_named (row_view row.now) (option_copied alias.entry)) }
{
    match element_named(row, alias) {
        Some(Element::Twin(twin)) => view.is_of(&twin.model, model, exact),
        Some(Element::Link(_)) => false,
        None => false,
    }
}
