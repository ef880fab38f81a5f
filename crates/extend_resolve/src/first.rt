//! The first of the breaches of one interface.

ghost use Rattle.std.specs.Prelude.{◌≡◌};
ghost use Rattle.std.specs.Ordering.{is_gt};
ghost use Rattle.extend_resolve.specs.Breaches.{place_in};
ghost use Rattle.extend_resolve.specs.Machinery.Firsts.{place_key, found_cmp, earlier_of, found_if};

use crate::rule::SetRule;
use dtdl_terms::{Spot, Uploaded};
use std::cmp::Ordering;

/// A rule that an interface breaks, and where.
#[derive(Clone, Copy)]
pub struct Found {
    pub spot: Spot,
    pub rule: SetRule,
}

/// A rule at a place, where it is broken there.
pub fn found_where(broken: bool, rule: SetRule, spot: Spot) -> Option<Found>
    ensures { result ≡ found_if broken rule spot }
{
    if broken {
        Some(Found { spot, rule })
    } else {
        None
    }
}

/// The earlier of two breaches of an interface, by place and rule.
pub fn earlier(uploaded: &Uploaded, one: Option<Found>, other: Option<Found>) -> Option<Found>
    ensures { result ≡ earlier_of uploaded.now one other }
{
    match (one, other) {
        (None, _) => other,
        (Some(_), None) => one,
        (Some(first), Some(second)) => {
            if comes_after(uploaded, first, second) {
                other
            } else {
                one
            }
        }
    }
}

/// Whether a breach comes after another of the same interface.
fn comes_after(uploaded: &Uploaded, one: Found, other: Found) -> bool
    ensures { result ≡ is_gt (found_cmp uploaded.now one other) }
{
    match place(uploaded, one.spot).cmp(&place(uploaded, other.spot)) {
        Ordering::Less => false,
        Ordering::Equal => one.rule.number() > other.rule.number(),
        Ordering::Greater => true,
    }
}

/// Where a place of an interface stands in its text: the whole first, then by the ordinal of the member, and then by the
/// position in it.
fn place(uploaded: &Uploaded, spot: Spot) -> Option<(u64, Option<u64>)>
    ensures { place_key result ≡ place_in uploaded.now spot }
{
    let parents_at = uploaded.parents_at.unwrap_or(0);
    match spot {
        Spot::Whole => None,
        Spot::Id => Some((uploaded.id_at, None)),
        Spot::Parents => Some((parents_at, None)),
        Spot::Parent(_) if uploaded.parents_as_text => Some((parents_at, None)),
        Spot::Parent(at) => Some((parents_at, Some(at))),
        Spot::ContentSchema(at) => Some((uploaded.contents_at.unwrap_or(0), Some(at))),
    }
}
