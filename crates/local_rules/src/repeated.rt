//! Entries of a list that repeat what an earlier one has.

ghost use Rattle.std.specs.Prelude.{◌≡◌, ◌<◌, map, length, option_and_then, IfOk};
ghost use Rattle.std.specs.Option.{option_map};
ghost use Rattle.std.specs.List.{list_any};
ghost use Rattle.json_decimal.specs.Decimals.{number_of};
ghost use Rattle.json_tree.specs.Values.{text};
ghost use Rattle.json_tree.specs.View.{view, members_view};
ghost use Rattle.local_rules.specs.Machinery.Repeated.{AreApart, AreInBuckets, HasBucket, HasSeen, comparable, compared, number_by, repeats_by, value_by};
ghost use Rattle.local_rules.specs.Repeats.{holds_some, is_among, name_in, same_value};

use dt_base::OutOfMemory;
use json_decimal::Decimal;
use json_tree::{Buckets, Tree, members_in, text_at, text_in, value_in};
use std::alloc::Global;
use std::collections::BTreeSet;

/// A number by its digits, in an order of no meaning.
#[derive(Clone, Copy, PartialEq, Eq, PartialOrd, Ord)]
pub(crate) struct Digits {
    negative: bool,
    coefficient: u128,
    exponent: i32,
}

/// What may stand twice, in an order of no meaning.
#[derive(Clone, Copy, PartialEq, Eq, PartialOrd, Ord)]
pub(crate) enum ComparisonKey<'a> {
    Number(Digits),
    Text(&'a str),
}

/// By what entries are compared.
#[derive(Clone, Copy)]
pub(crate) enum Comparison {
    /// By their names.
    Name,
    /// As texts themselves.
    Whole,
    /// By their enum values.
    Value,
}

fn digits_of(decimal: &Decimal) -> Digits
    ensures { number_by result ≡ number_of decimal.now }
{
    Digits {
        negative: decimal.negative,
        coefficient: decimal.coefficient(),
        exponent: decimal.exponent,
    }
}

/// The name of an entry.
pub fn name_in(tree: &Tree) -> Option<&str>
    ensures { option_map (λ t. t.now) result ≡ name_in (view tree.now) }
{
    text_at(members_in(tree), "name")
}

/// A value that is a number or a text.
#[tactic(auto, using(json_tree::proofs::Views::views))]
fn comparison_key_in(tree: &Tree) -> Option<ComparisonKey<'_>>
    ensures { option_map value_by result ≡ comparable (view tree.now) }
{
    match tree {
        Tree::Number(decimal) => Some(ComparisonKey::Number(digits_of(decimal))),
        Tree::Text(text) => Some(ComparisonKey::Text(text.as_str())),
        Tree::Null | Tree::Bool(_) | Tree::List(_) | Tree::Members(_) => None,
    }
}

fn text_key(said: Option<&str>) -> Option<ComparisonKey<'_>>
    ensures { option_map value_by result ≡ option_map (λ t. text t.now) said.entry }
{
    match said {
        Some(text) => Some(ComparisonKey::Text(text)),
        None => None,
    }
}

fn value_key(value: Option<&Tree>) -> Option<ComparisonKey<'_>>
    ensures { option_map value_by result ≡ option_and_then comparable (option_map (λ t. view t.now) value.entry) }
{
    match value {
        Some(value) => comparison_key_in(value),
        None => None,
    }
}

/// What an entry is compared by.
fn comparison_key_of(comparison: Comparison, entry: &Tree) -> Option<ComparisonKey<'_>>
    ensures { option_map value_by result ≡ compared comparison (view entry.now) }
{
    match comparison {
        Comparison::Name => text_key(name_in(entry)),
        Comparison::Whole => text_key(text_in(entry)),
        Comparison::Value => value_key(value_in(entry, "enumValue")),
    }
}

/// Whether an entry is compared by this.
fn has_key(comparison: Comparison, entry: &Tree, key: ComparisonKey<'_>) -> bool
    ensures { result ≡ holds_some (λ v. same_value v (value_by key.entry)) (compared comparison (view entry.now)) }
{
    match comparison_key_of(comparison, entry) {
        Some(other) => other == key,
        None => false,
    }
}

/// Whether one of the entries is compared by this.
fn any_has_key(comparison: Comparison, entries: &[Tree], key: ComparisonKey<'_>) -> bool
    ensures { result ≡ list_any (holds_some (λ v. same_value v (value_by key.entry))) (map (compared comparison) (map view entries.now)) }
{
    for entry in entries {
        if has_key(comparison, entry, key) {
            return true;
        }
    }
    false
}

/// Whether the entry at a position repeats an earlier one. It compares with each.
pub(crate) fn repeats_one(comparison: Comparison, entries: &[Tree], at: usize) -> bool
    requires { at < length entries.now }
    ensures { result ≡ repeats_by comparison (map view entries.now) at }
{
    match comparison_key_of(comparison, &entries[at]) {
        Some(key) => any_has_key(comparison, &entries[..at], key),
        None => false,
    }
}

/// Puts the text that an entry is compared by in its bucket, and answers whether one of the earlier entries has the
/// same. Where the bucket was not used none has, and they need not be compared. A number has no bucket.
fn was_put(
    buckets: &mut Buckets,
    comparison: Comparison,
    earlier: &[Tree],
    key: Option<ComparisonKey<'_>>,
) -> bool
    requires { AreInBuckets comparison (map view earlier.now) buckets.now }
    ensures among { result ≡ is_among same_value (map (compared comparison) (map view earlier.now)) (option_map value_by key.entry) }
    ensures put { HasBucket buckets.old buckets.new key.entry }
{
    match key {
        Some(ComparisonKey::Text(text)) => {
            if !buckets.put(text) {
                return false;
            }
            any_has_key(comparison, earlier, ComparisonKey::Text(text))
        }
        Some(key) => any_has_key(comparison, earlier, key),
        None => false,
    }
}

/// How many entries from the front are apart, found without memory.
fn apart_in_buckets(comparison: Comparison, entries: &[Tree]) -> usize
    ensures { AreApart comparison (map view entries.now) result }
{
    let mut buckets = Buckets::new();
    for (at, entry) in entries.iter().enumerate() {
        let key = comparison_key_of(comparison, entry);
        if was_put(&mut buckets, comparison, &entries[..at], key) {
            return at;
        }
    }
    entries.len()
}

/// Puts what an entry is compared by among what was seen, and answers whether it was there.
fn was_seen<'a>(
    seen: &mut BTreeSet<ComparisonKey<'a>>,
    key: Option<ComparisonKey<'a>>,
) -> Result<bool, OutOfMemory>
    ensures { IfOk result (λ b. HasSeen seen.old seen.new b key.entry) }
{
    match key {
        Some(key) => Ok(!seen.insert(key)?),
        None => Ok(false),
    }
}

/// How many entries from the front are apart, by a set of what was seen.
fn apart_in_set(
    alloc: Global,
    comparison: Comparison,
    entries: &[Tree],
) -> Result<usize, OutOfMemory>
    ensures { IfOk result (λ apart. AreApart comparison (map view entries.now) apart) }
{
    let mut seen = BTreeSet::new(alloc);
    for (at, entry) in entries.iter().enumerate() {
        if was_seen(&mut seen, comparison_key_of(comparison, entry))? {
            return Ok(at);
        }
    }
    Ok(entries.len())
}

/// Up to so many entries, buckets tell them apart. Many values that are numbers, which have no buckets, would each be
/// compared with all before them.
fn most_in_buckets(comparison: Comparison) -> usize {
    match comparison {
        Comparison::Name | Comparison::Whole => 64,
        Comparison::Value => 8,
    }
}

/// How many entries from the front are apart, so that none of them repeats an earlier one.
pub(crate) fn entries_apart(
    alloc: Global,
    comparison: Comparison,
    entries: &[Tree],
) -> Result<usize, OutOfMemory>
    ensures { IfOk result (λ apart. AreApart comparison (map view entries.now) apart) }
{
    if entries.len() <= most_in_buckets(comparison) {
        return Ok(apart_in_buckets(comparison, entries));
    }
    apart_in_set(alloc, comparison, entries)
}
