//! Names that are noted, and copies of them. What may fail is done here, where little is held.

ghost use Rattle.std.specs.Prelude.{◌≡◌, [], ◌∷◌, ◌++◌, IfOk, OnOk};
ghost use Rattle.query_grammar.specs.declared.names.Referent.TheVariants as referents;
ghost use Rattle.query_grammar.specs.Machinery.Steps.{noting_alias, noting_output, noting_use};

use dt_base::{List, OutOfMemory, Text};
use query_grammar::{Notes, PlacedName, Referent};
use query_terms::Item;
use std::alloc::Global;

/// The notes with one alias more, and a copy of it.
pub(crate) fn alias_noted(
    alloc: Global,
    notes: Notes,
    at: u32,
    name: Text,
) -> Result<(Notes, Text), OutOfMemory>
    ensures { IfOk result (λ r. (r.0 ≡ noting_alias notes (at, name)) × (r.1 ≡ name)) }
{
    let Ok(alias) = name.copy(alloc) else {
        drop((notes, name));
        return Err(OutOfMemory);
    };
    let Ok(notes) = notes.with_alias(PlacedName { at, name }) else {
        drop(alias);
        return Err(OutOfMemory);
    };
    Ok((notes, alias))
}

/// The notes with one use of a name more, and a copy of the name.
pub(crate) fn use_noted(
    alloc: Global,
    notes: Notes,
    at: u32,
    name: Text,
    referent: Referent,
) -> Result<(Notes, Text), OutOfMemory>
    ensures { IfOk result (λ r. (r.0 ≡ noting_use notes (at, name) referent) × (r.1 ≡ name)) }
{
    let Ok(used) = name.copy(alloc) else {
        drop((notes, name));
        return Err(OutOfMemory);
    };
    let Ok(notes) = notes.with_use(PlacedName { at, name }, referent) else {
        drop(used);
        return Err(OutOfMemory);
    };
    Ok((notes, used))
}

/// A path of one name.
fn path_of_one(alloc: Global, name: Text) -> Result<List<Text>, OutOfMemory>
    ensures { IfOk result (λ path. path ≡ name ∷ []) }
{
    let mut path = List::new(alloc);
    let Ok(()) = path.push(name) else {
        drop(path);
        return Err(OutOfMemory);
    };
    Ok(path)
}

/// A path with a copy of one name more.
pub(crate) fn with_name(
    alloc: Global,
    path: List<Text>,
    name: &Text,
) -> Result<List<Text>, OutOfMemory>
    ensures { IfOk result (λ longer. longer ≡ path ++ name.now ∷ []) }
{
    let mut path = path;
    path.push(name.copy(alloc)?)?;
    Ok(path)
}

/// The notes with the first name of a path, and the path.
pub(crate) fn path_noted(
    alloc: Global,
    notes: Notes,
    at: u32,
    name: Text,
) -> Result<(Notes, List<Text>), OutOfMemory>
    ensures { IfOk result (λ r. (r.0 ≡ noting_use notes (at, name) referents.Path) × (r.1 ≡ name ∷ [])) }
{
    let (notes, name) = use_noted(alloc, notes, at, name, Referent::Path)?;
    let Ok(path) = path_of_one(alloc, name) else {
        drop(notes);
        return Err(OutOfMemory);
    };
    Ok((notes, path))
}

/// The notes with the first name of an item's path, the path, and the name.
pub(crate) fn item_path_noted(
    alloc: Global,
    notes: Notes,
    at: u32,
    name: Text,
) -> Result<(Notes, List<Text>, PlacedName), OutOfMemory>
    ensures { IfOk result (λ r. (r.0 ≡ noting_use notes (at, name) referents.Path) × (r.1 ≡ name ∷ []) × (r.2 ≡ (at, name))) }
{
    let Ok(last) = name.copy(alloc) else {
        drop((notes, name));
        return Err(OutOfMemory);
    };
    let Ok((notes, path)) = path_noted(alloc, notes, at, name) else {
        drop(last);
        return Err(OutOfMemory);
    };
    Ok((notes, path, PlacedName { at, name: last }))
}

/// Adds an item of this path and name.
fn add_item(
    alloc: Global,
    items: &mut List<Item>,
    path: List<Text>,
    name: &Text,
) -> Result<(), OutOfMemory>
    ensures { OnOk result (items.new ≡ items.old ++ (record { path = path; out = name.now }) ∷ []) }
{
    let Ok(out) = name.copy(alloc) else {
        drop(path);
        return Err(OutOfMemory);
    };
    items.push(Item { path, out })
}

/// The notes with the name of one item more, and the items with it.
pub(crate) fn item_noted(
    alloc: Global,
    notes: Notes,
    items: List<Item>,
    path: List<Text>,
    placed: PlacedName,
) -> Result<(Notes, List<Item>), OutOfMemory>
    ensures { IfOk result (λ r. (r.0 ≡ noting_output notes placed) × (r.1 ≡ items ++ (record { path = path; out = placed.1 }) ∷ [])) }
{
    let mut items = items;
    let Ok(()) = add_item(alloc, &mut items, path, &placed.name) else {
        drop((notes, items, placed));
        return Err(OutOfMemory);
    };
    let Ok(notes) = notes.with_output(placed) else {
        drop(items);
        return Err(OutOfMemory);
    };
    Ok((notes, items))
}
