//! Whether a model is of a named one.

ghost use Rattle.std.specs.Prelude.{◌≡◌, ◌==◌, ◌≤◌, length, position};
ghost use Rattle.std.specs.List.{list_any, filter};
ghost use Rattle.std.specs.List.Sorted.{IsStrictlySortedBy};
ghost use Rattle.std.specs.Option.{option_copied};
ghost use Rattle.dt_base.specs.names.Grammar.{id_cmp};
ghost use Rattle.extend_resolve.specs.Breaches.{BreaksNoRule};
ghost use Rattle.extend_resolve.specs.Machinery.Within.{interface_passes};
ghost use Rattle.graph_steps.specs.Conditions.{same_segments, reaches_version};
ghost use Rattle.query_eval.specs.conditions.Models.{is_of_model};
ghost use Rattle.query_eval.specs.conditions.Machinery.Starts.{path_start, start_cmp, begins_so, is_before_start, is_upto, Parts};
ghost use Rattle.query_eval.specs.conditions.Machinery.Within.{leads_within, any_leads_within};

use dt_base::names::{Dtmi, same_path};
use dtdl_terms::{Interface, ModelSet};
use extend_resolve::MOST_STEPS;
use std::cmp::Ordering;

/// Whether a model is of the named one, in a set that breaks no rule (`IS_OF_MODEL` of the query language of Azure Digital
/// Twins): whether it, or an interface that it extends, has the same path and a version at least as great. A model that is
/// not in the set has these by itself or not at all. With `exact` it is whether the two are one. Takes no memory.
pub fn is_of_model(set: &ModelSet, model: &Dtmi, named: &Dtmi, exact: bool) -> bool
    requires rules { BreaksNoRule set.now }
    ensures { result ≡ is_of_model set.now exact model.now named.now }
{
    if exact {
        return *model == *named;
    }
    match set.get(model) {
        Some(interface) => leads(set, interface, named, MOST_STEPS),
        None => reaches(model, named),
    }
}

/// The most identifiers that are looked at one by one, which for so few is the faster way.
const FEW: usize = 8;

/// Whether one of the identifiers, which ascend, has the path of the named one and a version at least as great. Of more than
/// a few it looks at logarithmically many, and at those of that path. Takes no memory.
pub fn one_reaches(ids: &[Dtmi], named: &Dtmi) -> bool
    requires ascending { IsStrictlySortedBy id_cmp ids.now }
    ensures { result ≡ list_any (λ id. reaches_version id named.now) ids.now }
{
    if ids.len() <= FEW {
        return any_reaches(ids, named);
    }
    any_reaches(of_path(ids, named), named)
}

/// Those of the identifiers, which ascend, that have the path of the named one.
fn of_path<'a>(ids: &'a [Dtmi], named: &Dtmi) -> &'a [Dtmi]
    requires ascending { IsStrictlySortedBy id_cmp ids.now }
    ensures { result.now ≡ filter (begins_so (path_start named.now)) ids.now }
{
    let start = path_start(named);
    &ids[first_from(ids, start)..first_past(ids, start)]
}

/// Where the first of the identifiers, which ascend, stands that is not before all that begin with these bytes.
fn first_from(ids: &[Dtmi], start: &[u8]) -> usize
    requires ascending { IsStrictlySortedBy id_cmp ids.now }
    ensures within { result ≤ length ids.now }
    ensures parted { Parts (is_before_start start.now) ids.now result }
{
    ids.partition_point(|id| order_to_start(id, start).is_lt())
}

/// Where the first of the identifiers, which ascend, stands that is past all that begin with these bytes.
fn first_past(ids: &[Dtmi], start: &[u8]) -> usize
    requires ascending { IsStrictlySortedBy id_cmp ids.now }
    ensures within { result ≤ length ids.now }
    ensures parted { Parts (is_upto start.now) ids.now result }
{
    ids.partition_point(|id| order_to_start(id, start).is_le())
}

/// Whether one of the identifiers has the path of the named one and a version at least as great.
fn any_reaches(ids: &[Dtmi], named: &Dtmi) -> bool
    ensures { result ≡ list_any (λ id. reaches_version id named.now) ids.now }
{
    ids.iter().any(|id| reaches(id, named))
}

/// The bytes with which the identifiers of this one's path begin, and no others: those up to its `;`, and the `;`.
fn path_start(id: &Dtmi) -> &[u8]
    ensures { result.now ≡ path_start id.now }
{
    let bytes = id.as_str().as_bytes();
    let end = end_of_path(bytes).unwrap();
    &bytes[..=end]
}

/// Where the first `;` stands.
fn end_of_path(bytes: &[u8]) -> Option<usize>
    ensures { result ≡ position (λ b. b == 59) bytes.now }
{
    bytes.iter().position(|byte| *byte == b';')
}

/// How an identifier, cut to as many bytes, stands to these.
fn order_to_start(id: &Dtmi, start: &[u8]) -> Ordering
    ensures { result ≡ start_cmp start.now id.now }
{
    let bytes = id.as_str().as_bytes();
    bytes[..start.len().min(bytes.len())].cmp(start)
}

/// Whether the segments of two identifiers are one by one the same.
fn has_path(id: &Dtmi, named: &Dtmi) -> bool
    ensures { result ≡ same_segments id.now.segments named.now.segments }
{
    same_path(id, named)
}

/// Whether an identifier has the path of the named one and a version at least as great.
fn reaches(id: &Dtmi, named: &Dtmi) -> bool
    ensures { result ≡ reaches_version id.now named.now }
{
    has_path(id, named) && named.version() <= id.version()
}

/// Whether a chain of so many steps at most leads to an interface of the named path and version.
#[cycle(leading)]
fn leads(set: &ModelSet, interface: &Interface, named: &Dtmi, steps: u32) -> bool
    ensures { result ≡ leads_within set.now named.now steps interface.now }
{
    if reaches(&interface.id, named) {
        return true;
    }
    if steps == 0 {
        return false;
    }
    any_leads(set, interface.parents.as_slice(), named, steps - 1)
}

/// Whether one does from an interface of these identifiers.
#[cycle(leading)]
fn any_leads(set: &ModelSet, ids: &[Dtmi], named: &Dtmi, steps: u32) -> bool
    ensures { result ≡ any_leads_within set.now named.now steps ids.now }
{
    'ids: for id in ids {
        if found_leads(set, set.get(id), named, steps) {
            return true;
        }
    }
    false
}

/// Whether one does from the interface, where there is one.
#[cycle(leading)]
fn found_leads(set: &ModelSet, interface: Option<&Interface>, named: &Dtmi, steps: u32) -> bool
    ensures { result ≡ interface_passes (leads_within set.now named.now steps) (option_copied interface.entry) }
{
    match interface {
        Some(interface) => leads(set, interface, named, steps),
        None => false,
    }
}
