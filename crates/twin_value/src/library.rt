//! What the contents of a model refer to.

ghost use Rattle.std.specs.Prelude.{◌≡◌, [], ℕ, List, Some, false, map, IfOk, OnOk};
ghost use Rattle.std.specs.List.{AllByRecursion};
ghost use Rattle.std.specs.Option.{option_or};
ghost use Rattle.std.specs.Ordering.{nat_cmp};
ghost use Rattle.std.specs.Cmp.Lexicographic.{slice_cmp};
ghost use Rattle.std.specs.BTreeMap.{get_by};
ghost use Rattle.dt_base.specs.names.Grammar.{dtmi_text};
ghost use Rattle.dtdl_terms.specs.TermViews.{schema_term};
ghost use Rattle.twin_value.specs.Breaches.{library_of, no_library};
ghost use Rattle.twin_value.specs.Roles.{schemas_from, contents_in};
ghost use Rattle.twin_value.specs.Named.{part_of};
ghost use Rattle.twin_value.specs.Machinery.Indexes.{AreSchemas, LeadsToSchemas, is_there};

use crate::index::{Index, Keyed, put};
use dt_base::OutOfMemory;
use dt_base::names::Dtmi;
use dtdl_terms::{NamedIn, PartOf, Resolved, ResolvedContent, Schema};
use std::alloc::Global;
use std::collections::BTreeMap;
use std::marker::Model;

impl Keyed for PartOf {
    ghost use Rattle.std.specs.Prelude.{Some};
    ghost use Rattle.dt_base.specs.names.Grammar.{dtmi_text};

    ghost key_of = { λ p. Some (dtmi_text p.of) };

    fn key(&self) -> Option<&str> {
        Some(self.of.as_str())
    }
}

/// The schemas of each interface, by the interface's identifier and by their own.
fn schemas_of<'a>(
    alloc: Global,
    named: &'a [NamedIn],
) -> Result<BTreeMap<&'a str, Index<'a, Schema>>, OutOfMemory>
    ensures { IfOk result (AreSchemas named.now) }
{
    let mut schemas = BTreeMap::new(alloc);
    for one in named {
        let Ok(()) = add_schemas(&mut schemas, alloc, one) else {
            drop(schemas);
            return Err(OutOfMemory);
        };
    }
    Ok(schemas)
}

/// Adds the schemas of an interface, unless an earlier one has its identifier.
fn add_schemas<'a>(
    schemas: &mut BTreeMap<&'a str, Index<'a, Schema>>,
    alloc: Global,
    one: &'a NamedIn,
) -> Result<(), OutOfMemory>
    ensures { OnOk result ((q : List ℕ) → get_by (λ k. slice_cmp nat_cmp q k.now) schemas.new
        ≡ option_or (get_by (λ k. slice_cmp nat_cmp q k.now) schemas.old) (is_there q (Some (dtmi_text one.now.of)) one.now.schemas)) }
{
    let of = one.of.as_str();
    if schemas.contains_key(of) {
        return Ok(());
    }
    let index = Index::of(alloc, one.schemas.as_slice())?;
    put(schemas, of, index)
}

/// Whether an interface declares schemas.
fn has_schemas(named: &[NamedIn]) -> bool
    ensures { result ≡ false → AllByRecursion (λ n. n.schemas ≡ []) named.now }
{
    for one in named {
        if !one.schemas.is_empty() {
            return true;
        }
    }
    false
}

/// The schemas of each interface, by the interface's identifier and by their own, where there are any.
fn schemas_if_any<'a>(
    alloc: Global,
    named: &'a [NamedIn],
) -> Result<BTreeMap<&'a str, Index<'a, Schema>>, OutOfMemory>
    ensures { IfOk result (LeadsToSchemas named.now) }
{
    if has_schemas(named) {
        return schemas_of(alloc, named);
    }
    Ok(BTreeMap::new(alloc))
}

/// The schemas that interfaces declare, and the interfaces of components, by their identifiers.
#[derive(Drop)]
pub struct Library<'a> {
    named: &'a [NamedIn],
    schemas: BTreeMap<&'a str, Index<'a, Schema>>,
    parts: Index<'a, PartOf>,
    /// The schemas of an interface that declares none.
    none: Index<'a, Schema>,
}

impl<'a> Model for Library<'a> {
    ghost use Rattle.std.specs.Prelude.{◌≡◌, [], List, refl};
    ghost use Rattle.std.specs.Coded.{code_by, coded×, coded_list};
    ghost use Rattle.dtdl_terms.specs.contracts.resolved.NamedIn as named_row;
    ghost use Rattle.dtdl_terms.specs.contracts.resolved.PartOf as part_row;
    ghost use Rattle.dtdl_terms.specs.declared.resolved.NamedIn.{NamedIn};
    ghost use Rattle.dtdl_terms.specs.declared.resolved.PartOf.{PartOf};
    ghost use Rattle.twin_value.specs.Roles as roles;
    ghost use Rattle.twin_value.specs.Machinery.Indexes.{LeadsToSchemas};

    ghost Value = { roles.Library };

    ghost coded = { code_by (List NamedIn × List PartOf) (coded× (coded_list named_row.the_row.coded) (coded_list part_row.the_row.coded)) (λ l. (l.named, l.parts)) (λ p. record { named = p.0; parts = p.1 }) (λ _. refl) };

    ghost view = { λ l. record { named = l.named.now; parts = l.parts } };

    ghost invariant = { λ l. LeadsToSchemas l.named.now l.schemas × (l.none ≡ []) };
}

impl<'a> Library<'a> {
    /// The library of a model.
    pub fn of(alloc: Global, resolved: &'a Resolved) -> Result<Library<'a>, OutOfMemory>
        ensures { IfOk result (λ library. library ≡ library_of resolved.now) }
    {
        Library::from_parts(alloc, resolved.named.as_slice(), resolved.parts.as_slice())
    }

    /// The library of what refers to nothing.
    pub fn empty(alloc: Global) -> Result<Library<'a>, OutOfMemory>
        ensures { IfOk result (λ library. library ≡ no_library) }
    {
        Library::from_parts(alloc, &[], &[])
    }

    /// The library of these schemas and interfaces of components.
    fn from_parts(
        alloc: Global,
        named: &'a [NamedIn],
        parts: &'a [PartOf],
    ) -> Result<Library<'a>, OutOfMemory>
        ensures { IfOk result (λ library. library ≡ record { named = named.now; parts = parts.now }) }
    {
        let schemas = schemas_if_any(alloc, named)?;
        let Ok(parts) = Index::of(alloc, parts) else {
            drop(schemas);
            return Err(OutOfMemory);
        };
        let Ok(none) = Index::of(alloc, &[]) else {
            drop((schemas, parts));
            return Err(OutOfMemory);
        };
        Ok(Library {
            named,
            schemas,
            parts,
            none,
        })
    }

    /// The schemas that an interface declares.
    pub fn schemas_from(&self, from: &Dtmi) -> &Index<'a, Schema>
        ensures { map schema_term result.now ≡ schemas_from self.now from.now }
    {
        if let Some(found) = self.schemas.get(from.as_str()) {
            return found;
        }
        &self.none
    }

    /// The contents of the interface of a component.
    pub fn contents_of(&self, of: &Dtmi) -> &'a [ResolvedContent]
        ensures { result.now ≡ contents_in (part_of of.now self.now.parts) }
    {
        match self.parts.get(of.as_str()) {
            Some(part) => part.contents.as_slice(),
            None => &[],
        }
    }
}
