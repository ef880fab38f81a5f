//! Which models use which.

ghost use Rattle.std.specs.Prelude.{◌≡◌, [], ◌&&◌, true, false, cond, slice_get, unwrap_or, Some, None, OnErr, OnOk};
ghost use Rattle.std.specs.Map.{keys_of};
ghost use Rattle.std.specs.List.{AllByRecursion, list_any};
ghost use Rattle.dt_base.specs.names.Grammar.{Identifier, id_eq};
ghost use Rattle.dtdl_terms.specs.TermViews.{kind_term};
ghost use Rattle.dtdl_terms.specs.declared.interface.Interface.{Interface};
ghost use Rattle.model_life.specs.Models.{is_component, uses};
ghost use Rattle.std.specs.Option.{option_copied};
ghost use Rattle.dtdl_terms.specs.Sets.{interface_at};
ghost use Rattle.model_life.specs.resolution.Machinery.Families.{kind_id};
ghost use Rattle.model_life.specs.sets.Changing.{is_one_of};
ghost use Rattle.model_life.specs.Machinery.Keeping.{HasText, HaveTexts, UsersAreWithin, user_at, use_of};

use crate::records::Records;
use dt_base::OutOfMemory;
use dt_base::names::Dtmi;
use dtdl_terms::{Content, ContentKind, Interface, ModelSet};
use ordered_table::{Entries, Table};
use std::alloc::Global;

/// Under the text of the identifier that is used, the identifiers of the models that use it.
pub type Users = Table<Dtmi, ()>;

/// Adds a user of a model that is there.
fn add(
    users: &mut Users,
    alloc: Global,
    records: &Records,
    used: &Dtmi,
    user: &Dtmi,
) -> Result<(), OutOfMemory>
    requires { HasText records.now used.now }
    ensures ok { OnOk result ((t u : Identifier) → user_at t u users.new ≡ cond (id_eq t used.now && id_eq u user.now) (Some tt) (user_at t u users.old)) }
    ensures err { OnErr result (users.new ≡ users.old) }
{
    match records.get(used) {
        Some(record) => {
            let user = user.copy(alloc)?;
            users.insert(&record.text, user, ())?;
            Ok(())
        }
        None => Ok(()),
    }
}

/// Takes out a user of a model that is there. Takes no memory.
fn take(users: &mut Users, records: &Records, used: &Dtmi, user: &Dtmi)
    requires { HasText records.now used.now }
    ensures { (t u : Identifier) → user_at t u users.new ≡ cond (id_eq t used.now && id_eq u user.now) None (user_at t u users.old) }
{
    if let Some(record) = records.get(used) {
        let _user = users.remove(&record.text, user);
    }
}

/// Adds a user of several models.
fn add_parents(
    users: &mut Users,
    alloc: Global,
    records: &Records,
    parents: &[Dtmi],
    user: &Dtmi,
) -> Result<(), OutOfMemory>
    requires { AllByRecursion (HasText records.now) parents.now }
    ensures ok { OnOk result ((t u : Identifier) → user_at t u users.new ≡ cond (list_any (id_eq t) parents.now && id_eq u user.now) (Some tt) (user_at t u users.old)) }
    ensures others { (t u : Identifier) → (list_any (id_eq t) parents.now && id_eq u user.now) ≡ false → user_at t u users.new ≡ user_at t u users.old }
{
    'parents: for parent in parents {
        add(users, alloc, records, parent, user)?;
    }
    Ok(())
}

/// Adds a user of the interfaces of components.
fn add_components(
    users: &mut Users,
    alloc: Global,
    records: &Records,
    contents: &[Content],
    user: &Dtmi,
) -> Result<(), OutOfMemory>
    requires { (t : Identifier) → list_any (λ c. is_component t (kind_term c.kind)) contents.now ≡ true → HasText records.now t }
    ensures ok { OnOk result ((t u : Identifier) → user_at t u users.new ≡ cond (list_any (λ c. is_component t (kind_term c.kind)) contents.now && id_eq u user.now) (Some tt) (user_at t u users.old)) }
    ensures others { (t u : Identifier) → (list_any (λ c. is_component t (kind_term c.kind)) contents.now && id_eq u user.now) ≡ false → user_at t u users.new ≡ user_at t u users.old }
{
    'contents: for content in contents {
        if let Some(used) = component_of(content) {
            add(users, alloc, records, used, user)?;
        }
    }
    Ok(())
}

/// Takes out a user of several models.
fn take_parents(users: &mut Users, records: &Records, parents: &[Dtmi], user: &Dtmi)
    requires { AllByRecursion (HasText records.now) parents.now }
    ensures { (t u : Identifier) → user_at t u users.new ≡ cond (list_any (id_eq t) parents.now && id_eq u user.now) None (user_at t u users.old) }
{
    'parents: for parent in parents {
        take(users, records, parent, user);
    }
}

/// Takes out a user of the interfaces of components.
fn take_components(users: &mut Users, records: &Records, contents: &[Content], user: &Dtmi)
    requires { (t : Identifier) → list_any (λ c. is_component t (kind_term c.kind)) contents.now ≡ true → HasText records.now t }
    ensures { (t u : Identifier) → user_at t u users.new ≡ cond (list_any (λ c. is_component t (kind_term c.kind)) contents.now && id_eq u user.now) None (user_at t u users.old) }
{
    'contents: for content in contents {
        if let Some(used) = component_of(content) {
            take(users, records, used, user);
        }
    }
}

/// The identifier of a component's interface, where the content is a component.
fn component_of(content: &Content) -> Option<&Dtmi>
    ensures { option_copied result ≡ kind_id (kind_term content.now.kind) }
{
    match &content.kind {
        ContentKind::Component { of } => Some(of),
        _ => None,
    }
}

/// Adds an interface as a user of each model that it uses. After `Err` some may be left in.
fn link(
    users: &mut Users,
    alloc: Global,
    records: &Records,
    interface: &Interface,
) -> Result<(), OutOfMemory>
    requires { (t : Identifier) → uses t interface.now ≡ true → HasText records.now t }
    ensures ok { OnOk result ((t u : Identifier) → user_at t u users.new ≡ cond (uses t interface.now && id_eq u interface.now.id) (Some tt) (user_at t u users.old)) }
    ensures others { (t u : Identifier) → (uses t interface.now && id_eq u interface.now.id) ≡ false → user_at t u users.new ≡ user_at t u users.old }
{
    let id = &interface.id;
    add_parents(users, alloc, records, interface.parents.as_slice(), id)?;
    add_components(users, alloc, records, interface.contents.as_slice(), id)
}

/// Takes an interface out as a user of each model that it uses. Takes no memory.
fn unlink(users: &mut Users, records: &Records, interface: &Interface)
    requires { (t : Identifier) → uses t interface.now ≡ true → HasText records.now t }
    ensures { (t u : Identifier) → user_at t u users.new ≡ cond (uses t interface.now && id_eq u interface.now.id) None (user_at t u users.old) }
{
    let id = &interface.id;
    take_parents(users, records, interface.parents.as_slice(), id);
    take_components(users, records, interface.contents.as_slice(), id);
}

/// Adds the interfaces of these identifiers as users, where the others are. After `Err` some may be left in.
pub fn link_all(
    users: &mut Users,
    alloc: Global,
    set: &ModelSet,
    records: &Records,
    ids: &[Dtmi],
) -> Result<(), OutOfMemory>
    requires texts { HaveTexts set.now records.now }
    requires within { UsersAreWithin set.now users.old }
    requires others { (used user : Identifier) → is_one_of ids.now user ≡ false → user_at used user users.old ≡ use_of used (interface_at user set.now) }
    ensures ok { OnOk result ((used user : Identifier) → user_at used user users.new ≡ use_of used (interface_at user set.now)) }
    ensures within { UsersAreWithin set.now users.new }
    ensures others { (used user : Identifier) → is_one_of ids.now user ≡ false → user_at used user users.new ≡ user_at used user users.old }
{
    'ids: for id in ids {
        if let Some(interface) = set.get(id) {
            link(users, alloc, records, interface)?;
        }
    }
    Ok(())
}

/// Takes the interfaces of these identifiers out as users. Takes no memory.
pub fn unlink_all(users: &mut Users, set: &ModelSet, records: &Records, ids: &[Dtmi])
    requires texts { HaveTexts set.now records.now }
    requires within { UsersAreWithin set.now users.old }
    ensures { (used user : Identifier) → user_at used user users.new ≡ cond (is_one_of ids.now user) None (user_at used user users.old) }
{
    'ids: for id in ids {
        if let Some(interface) = set.get(id) {
            unlink(users, records, interface);
        }
    }
}

/// The first of some users.
pub fn first_of<'a>(users: Option<Entries<'a, Dtmi, ()>>) -> Option<&'a Dtmi>
    ensures { option_copied result ≡ slice_get (keys_of (unwrap_or users.entry [])) 0 }
{
    let Some(mut users) = users else {
        return None;
    };
    match users.next() {
        Some((user, _)) => Some(user),
        None => None,
    }
}
