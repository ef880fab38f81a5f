//! How many relationships of a name there may be.

ghost use Rattle.std.specs.Prelude.{◌≡◌, length};
ghost use Rattle.graph_steps.specs.held.Held.{state_of};
ghost use Rattle.graph_steps.specs.LinkAsks.{Multiplicity, others_named};
ghost use Rattle.std.specs.Prelude.{Some};
ghost use Rattle.graph_judges.specs.links.Machinery.Refused.{TellsRefusal};

use dt_base::Text;
use dtdl_terms::ResolvedContent;
use graph_asks::Refusal;
use graph_steps::held::{Lent, most_of};

/// How many relationships of a source have a name, but for the one with an id. Takes no memory.
fn others(lent: &Lent<'_>, source: &Text, id: &Text, name: &Text) -> u64
    ensures { result ≡ length (others_named (state_of lent.now) source.now id.now name.now) }
{
    let links = lent.links();
    let _ordered = links.len();
    let count = links.count(source, name);
    let Some(edge) = links.get(source, id) else {
        return count;
    };
    if edge.name.as_str() == name.as_str() {
        return count - 1;
    }
    count
}

/// The refusal of a relationship of which there would be too many. Takes no memory.
pub(crate) fn count_refusal(
    lent: &Lent<'_>,
    content: &ResolvedContent,
    source: &Text,
    id: &Text,
    name: &Text,
) -> Option<Refusal>
    ensures { TellsRefusal (Multiplicity (state_of lent.now) (Some content.now) source.now id.now name.now) result }
{
    let Some(most) = most_of(&content.content.kind) else {
        return None;
    };
    let max = u64::from(most);
    if others(lent, source, id, name) >= max {
        return Some(Refusal::Multiplicity { max });
    }
    None
}
