//! What the walk knows of a value beside its role, from the list or the object in which it stands: whether it repeats
//! an earlier entry, and whether its key is a language code.

ghost use Rattle.std.specs.Prelude.{◌≡◌, ◌<◌, map, length, false, IfOk, Some};
ghost use Rattle.std.specs.Option.{option_map};
ghost use Rattle.json_tree.specs.View.{view, members_view};
ghost use Rattle.local_rules.specs.Roles.{element_member, entry_role};
ghost use Rattle.local_rules.specs.Machinery.Marks.{entry_mark, entry_repeats, entry_repeats_value, entry_rule, interface_role, mark_rule, member_mark, member_of_entry, member_rule, name_rule, value_rule};
ghost use Rattle.local_rules.specs.Machinery.Repeated.{AreApart, AreApartBy, repeats_by, comparison_of, value_comparison_of};
ghost use Rattle.local_rules.specs.declared.repeated.Comparison.TheVariants as comparison;

use crate::languages::is_language;
use crate::repeated::{Comparison, entries_apart, repeats_one};
use crate::role::{Element, Role};
use crate::roles::{entry_role, member_role};
use crate::rule::LocalRule;
use dt_base::OutOfMemory;
use json_tree::{Member, Tree};
use std::alloc::Global;

/// What the list or the object in which a value stands tells of it.
#[derive(Clone, Copy, Debug, PartialEq, Eq)]
pub enum Mark {
    /// Nothing that a rule asks.
    Plain,
    /// It is an entry of a list in this role. `repeats` tells that an earlier entry has the same name, or of parents
    /// is the same text, `same_value` that an earlier enum entry has the same value.
    Entry {
        list: Role,
        repeats: bool,
        same_value: bool,
    },
    /// It is a member of such an entry.
    Member {
        list: Role,
        repeats: bool,
        same_value: bool,
    },
    /// It is a member of a localized text, and this tells whether its key is a language code.
    Localized {
        is_language: bool,
    },
}

/// A role with a mark.
#[derive(Clone, Copy, Debug, PartialEq, Eq)]
pub struct MarkedRole {
    pub role: Role,
    pub mark: Mark,
}

/// The rule that an entry of a list in this role breaks by its mark.
fn entry_rule(list: Role, repeats: bool) -> Option<LocalRule>
    ensures { result ≡ entry_rule list repeats }
{
    match list {
        Role::Extends => repeats.then_some(LocalRule::RepeatedParent),
        _ => None,
    }
}

/// The rule that a name breaks which an earlier entry of a list in this role has too.
fn name_rule(list: Role) -> Option<LocalRule>
    ensures { result ≡ name_rule list }
{
    match list {
        Role::Contents | Role::Properties => Some(LocalRule::DuplicateName),
        Role::Fields => Some(LocalRule::DuplicateField),
        Role::EnumValues { .. } => Some(LocalRule::DuplicateEnumName),
        _ => None,
    }
}

/// The rule that an enum value breaks which an earlier entry of a list in this role has too.
fn value_rule(list: Role) -> Option<LocalRule>
    ensures { result ≡ value_rule list }
{
    match list {
        Role::EnumValues { .. } => Some(LocalRule::DuplicateEnumValue),
        _ => None,
    }
}

/// The rule that a member of an entry breaks by its mark.
fn member_rule(role: Role, list: Role, repeats: bool, same_value: bool) -> Option<LocalRule>
    ensures { result ≡ member_rule role list repeats same_value }
{
    match role {
        Role::Name if repeats => name_rule(list),
        Role::EnumValue { .. } if same_value => value_rule(list),
        _ => None,
    }
}

/// The mark of a member, by that of the object in which it stands.
fn member_of_entry(mark: Mark) -> Mark
    ensures { result ≡ member_of_entry mark }
{
    match mark {
        Mark::Entry {
            list,
            repeats,
            same_value,
        } => Mark::Member {
            list,
            repeats,
            same_value,
        },
        _ => Mark::Plain,
    }
}

/// The same, by the object's role too, and by the member's key.
fn member_mark(role: Role, mark: Mark, key: &str) -> Mark
    ensures { result ≡ member_mark role mark key.now }
{
    match role {
        Role::Localized { .. } => Mark::Localized {
            is_language: is_language(key),
        },
        _ => member_of_entry(mark),
    }
}

impl MarkedRole {
    /// That of an interface.
    pub fn of_interface() -> MarkedRole
        ensures { result ≡ interface_role }
    {
        MarkedRole {
            role: Role::Interface,
            mark: Mark::Plain,
        }
    }

    /// The rule that its mark tells to be broken.
    pub(crate) fn mark_rule(self) -> Option<LocalRule>
        ensures { result ≡ mark_rule self.role self.mark }
    {
        match self.mark {
            Mark::Plain => None,
            Mark::Entry { list, repeats, .. } => entry_rule(list, repeats),
            Mark::Member {
                list,
                repeats,
                same_value,
            } => member_rule(self.role, list, repeats, same_value),
            Mark::Localized { is_language } => (!is_language).then_some(LocalRule::BadLanguage),
        }
    }

    /// That of the member with this key of an object that stands in it, which is that element.
    pub fn of_member(
        self,
        element: Option<Element>,
        members: &[Member],
        key: &str,
    ) -> Option<MarkedRole>
        ensures { result ≡ option_map (λ s. record { role = s; mark = member_mark self.role self.mark key.now }) (element_member self.role (members_view members.now) element key.now) }
    {
        match member_role(self.role, element, members, key) {
            Some(role) => Some(MarkedRole {
                role,
                mark: member_mark(self.role, self.mark, key),
            }),
            None => None,
        }
    }
}

/// The entries of a list, with what tells of each whether an earlier one has the same name, text or value: how many
/// from the front are apart, mostly all. Only one behind these is compared with those before it, and a document in
/// which there is one breaks a rule.
#[derive(Drop)]
pub struct EntryMarks<'a> {
    /// The role of the list.
    pub list: Role,
    /// Its entries.
    pub entries: &'a [Tree],
    names_apart: usize,
    values_apart: usize,
    ghost named: { AreApartBy (comparison_of list) (map view entries.now) names_apart },
    ghost valued: { AreApartBy (value_comparison_of list) (map view entries.now) values_apart },
}

/// By what the entries of a list in this role are compared, where they are.
fn comparison_of(list: Role) -> Option<Comparison>
    ensures { result ≡ comparison_of list }
{
    match list {
        Role::Contents | Role::Properties | Role::Fields | Role::EnumValues { .. } => {
            Some(Comparison::Name)
        }
        Role::Extends => Some(Comparison::Whole),
        _ => None,
    }
}

/// By what they are compared besides.
fn value_comparison_of(list: Role) -> Option<Comparison>
    ensures { result ≡ value_comparison_of list }
{
    match list {
        Role::EnumValues { .. } => Some(Comparison::Value),
        _ => None,
    }
}

/// How many entries from the front are apart, where they are compared.
fn apart_by(
    alloc: Global,
    comparison: Option<Comparison>,
    entries: &[Tree],
) -> Result<usize, OutOfMemory>
    ensures { IfOk result (λ apart. AreApartBy comparison (map view entries.now) apart) }
{
    match comparison {
        Some(comparison) => entries_apart(alloc, comparison, entries),
        None => Ok(0),
    }
}

/// Whether the entry at a position repeats an earlier one, where so many from the front are apart.
fn repeats(apart: usize, comparison: Comparison, entries: &[Tree], at: usize) -> bool
    requires apart { AreApart comparison (map view entries.now) apart }
    requires within { at < length entries.now }
    ensures { result ≡ repeats_by comparison (map view entries.now) at }
{
    at >= apart && repeats_one(comparison, entries, at)
}

impl<'a> EntryMarks<'a> {
    /// Those of the entries of a list in this role.
    pub fn of(alloc: Global, list: Role, entries: &'a [Tree]) -> Result<EntryMarks<'a>, OutOfMemory>
        ensures list { IfOk result (λ marks. marks.list ≡ list) }
        ensures entries { IfOk result (λ marks. marks.entries.now ≡ entries.now) }
    {
        let names_apart = apart_by(alloc, comparison_of(list), entries)?;
        let values_apart = apart_by(alloc, value_comparison_of(list), entries)?;
        Ok(EntryMarks {
            list,
            entries,
            names_apart,
            values_apart,
        })
    }

    fn repeats(&self, at: usize) -> bool
        requires { at < length self.now.entries.now }
        ensures { result ≡ entry_repeats self.now.list (map view self.now.entries.now) at }
    {
        match comparison_of(self.list) {
            Some(comparison) => repeats(self.names_apart, comparison, self.entries, at),
            None => false,
        }
    }

    fn repeats_value(&self, at: usize) -> bool
        requires { at < length self.now.entries.now }
        ensures { result ≡ entry_repeats_value self.now.list (map view self.now.entries.now) at }
    {
        match value_comparison_of(self.list) {
            Some(comparison) => repeats(self.values_apart, comparison, self.entries, at),
            None => false,
        }
    }

    /// The marked role of the entry at a position.
    pub fn at(&self, at: usize) -> Option<MarkedRole>
        requires { at < length self.now.entries.now }
        ensures { result ≡ option_map (λ s. record { role = s; mark = entry_mark self.now.list (map view self.now.entries.now) at }) (entry_role self.now.list) }
    {
        match entry_role(self.list) {
            Some(role) => Some(MarkedRole {
                role,
                mark: Mark::Entry {
                    list: self.list,
                    repeats: self.repeats(at),
                    same_value: self.repeats_value(at),
                },
            }),
            None => None,
        }
    }
}
