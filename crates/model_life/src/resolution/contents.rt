//! Contents by their names.

ghost use Rattle.std.specs.Prelude.{◌≡◌, ◌↔◌, ◌⊎◌, [], ℕ, List, Some, Contains, cond, map, IfOk, OnOk};
ghost use Rattle.std.specs.Ordering.{is_eq, nat_cmp};
ghost use Rattle.std.specs.Cmp.Lexicographic.{slice_cmp};
ghost use Rattle.std.specs.List.Sorted.{IsStrictlySortedBy};
ghost use Rattle.dtdl_terms.specs.declared.resolved.ResolvedContent.{ResolvedContent};
ghost use Rattle.model_life.specs.resolution.Machinery.Families.{content_at, declared_by, HasContent, IsDeclared, IsDeclaredIn, AreOne};

use dt_base::names::Dtmi;
use dt_base::{List, OutOfMemory};
use dtdl_terms::{Content, Interface, ResolvedContent};
use std::alloc::Global;
use std::collections::BTreeMap;
use std::marker::Model;

/// Contents that were found, no two of one name, each with the interface that declares it, which contracts see as their
/// list in the order of the names.
#[derive(Drop)]
struct Contents<'a> {
    by_name: BTreeMap<&'a str, (&'a Dtmi, &'a Content)>,
}

impl<'a> Model for Contents<'a> {
    ghost use Rattle.std.specs.Prelude.{List};
    ghost use Rattle.std.specs.Coded.{coded_list};
    ghost use Rattle.dtdl_terms.specs.contracts.resolved.ResolvedContent as resolved;
    ghost use Rattle.std.specs.Ordering.{nat_cmp};
    ghost use Rattle.std.specs.Cmp.Lexicographic.{slice_cmp};
    ghost use Rattle.std.specs.BTreeMap.{IsOrdered};
    ghost use Rattle.dtdl_terms.specs.declared.resolved.ResolvedContent.{ResolvedContent};
    ghost use Rattle.model_life.specs.resolution.Machinery.Families.{contents_of_entries, AreUnderTheirNames};

    ghost Value = { List ResolvedContent };

    ghost coded = { coded_list resolved.the_row.coded };

    ghost view = { λ c. contents_of_entries c.by_name.entries };

    ghost invariant = { λ c. IsOrdered (λ x y. slice_cmp nat_cmp x.now y.now) c.by_name × AreUnderTheirNames c.by_name.entries };
}

impl<'a> Contents<'a> {
    /// No contents.
    fn new(alloc: Global) -> Contents<'a>
        ensures { result ≡ [] }
    {
        Contents {
            by_name: BTreeMap::new(alloc),
        }
    }

    /// Adds a content, in place of one with its name.
    fn add(&mut self, from: &'a Dtmi, content: &'a Content) -> Result<(), OutOfMemory>
        ensures { OnOk result ((name : List ℕ) → content_at name self.new ≡ cond (is_eq (slice_cmp nat_cmp name content.now.name)) (Some (declared_by from.now content.now)) (content_at name self.old)) }
    {
        self.by_name.insert(content.name.as_str(), (from, content))?;
        Ok(())
    }

    /// Equal contents in memory of their own, in the order of their names.
    fn copy(&self, alloc: Global) -> Result<List<ResolvedContent>, OutOfMemory>
        ensures each { IfOk result (λ copies. copies ≡ self.now) }
        ensures sorted { IfOk result (λ _. IsStrictlySortedBy (slice_cmp nat_cmp) (map (λ r. r.content.name) self.now)) }
    {
        let mut copies = Vec::with_capacity(alloc, self.by_name.len())?;
        'contents: for declared in self.by_name.values() {
            copies.push(copy_declared(alloc, declared.0, declared.1)?)?;
        }
        Ok(List::from_vec(copies))
    }
}

/// An equal content in memory of its own.
fn copy_declared(
    alloc: Global,
    from: &Dtmi,
    content: &Content,
) -> Result<ResolvedContent, OutOfMemory>
    ensures { IfOk result (λ copy. copy ≡ declared_by from.now content.now) }
{
    let from = from.copy(alloc)?;
    let Ok(content) = content.copy(alloc) else {
        drop(from);
        return Err(OutOfMemory);
    };
    Ok(ResolvedContent { from, content })
}

/// The contents that interfaces declare, in the order of their names.
pub fn contents_of(
    alloc: Global,
    interfaces: &[&Interface],
) -> Result<List<ResolvedContent>, OutOfMemory>
    requires one { AreOne (IsDeclaredIn (map (λ i. i.now) interfaces.now)) }
    ensures each { IfOk result (λ rs. (r : ResolvedContent) → Contains rs r ↔ IsDeclaredIn (map (λ i. i.now) interfaces.now) r) }
    ensures sorted { IfOk result (λ rs. IsStrictlySortedBy (slice_cmp nat_cmp) (map (λ r. r.content.name) rs)) }
{
    let mut contents = Contents::new(alloc);
    'interfaces: for interface in interfaces {
        let Ok(()) = add_contents(interface, &mut contents) else {
            drop(contents);
            return Err(OutOfMemory);
        };
    }
    let copies = contents.copy(alloc);
    drop(contents);
    copies
}

/// Adds the contents of an interface.
fn add_contents<'a>(
    interface: &'a Interface,
    contents: &mut Contents<'a>,
) -> Result<(), OutOfMemory>
    requires one { AreOne (λ r. HasContent contents.old r ⊎ IsDeclared interface.now r) }
    ensures { OnOk result ((r : ResolvedContent) → HasContent contents.new r ↔ (HasContent contents.old r ⊎ IsDeclared interface.now r)) }
{
    'contents: for content in interface.contents.as_slice() {
        contents.add(&interface.id, content)?;
    }
    Ok(())
}
