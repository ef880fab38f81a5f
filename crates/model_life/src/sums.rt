//! How many bytes canonical texts take together. A sum that 64 bits do not hold is the most that they hold.

ghost use Rattle.std.specs.Prelude.{◌≡◌, Contains, map, IfOk};
ghost use Rattle.std.specs.List.{sum_by};
ghost use Rattle.dtdl_terms.specs.Sets.{InOrder};
ghost use Rattle.dtdl_terms.specs.declared.interface.Interface.{Interface};
ghost use Rattle.extend_resolve.specs.Breaches.{BreaksNoRule};
ghost use Rattle.model_life.specs.resolution.Machinery.Families.{IsThere};
ghost use Rattle.model_life.specs.Machinery.Keeping.{AreRecorded, record_at, bytes_at, recorded, capped, line_of, share_of};

use crate::records::Records;
use crate::resolution::{ancestors, parts};
use dt_base::OutOfMemory;
use dt_base::names::Dtmi;
use dtdl_terms::{Interface, ModelSet};
use std::alloc::Global;

/// The bytes of the text of one interface.
fn bytes_at(records: &Records, id: &Dtmi) -> u64
    ensures { result ≡ bytes_at (record_at id.now records.now) }
{
    match records.get(id) {
        Some(record) => record.bytes,
        None => 0,
    }
}

/// The bytes of the texts of the interfaces of several identifiers.
pub fn bytes_of(records: &Records, ids: &[Dtmi]) -> u64
    ensures { result ≡ capped (recorded records.now ids.now) }
{
    let mut sum: u64 = 0;
    'ids: for id in ids {
        sum = sum.saturating_add(bytes_at(records, id));
    }
    sum
}

/// The bytes of the texts of several interfaces.
fn text_bytes(records: &Records, interfaces: &[&Interface]) -> u64
    ensures { result ≡ capped (sum_by (λ i. bytes_at (record_at i.now.id records.now)) interfaces.now) }
{
    let mut sum: u64 = 0;
    'interfaces: for interface in interfaces {
        sum = sum.saturating_add(bytes_at(records, &interface.id));
    }
    sum
}

/// The bytes of the texts of an interface and its ancestors.
fn line_bytes(
    alloc: Global,
    set: &ModelSet,
    records: &Records,
    interface: &Interface,
) -> Result<u64, OutOfMemory>
    requires sound { BreaksNoRule set.now }
    requires ordered { InOrder set.now }
    requires records { AreRecorded set.now records.now }
    requires there { IsThere set.now interface.now }
    ensures { IfOk result (λ bytes. bytes ≡ capped (line_of set.now interface.now)) }
{
    let ancestors = ancestors(alloc, set, interface)?;
    let bytes = text_bytes(records, ancestors.as_slice());
    drop(ancestors);
    Ok(bytes)
}

/// The same of several interfaces together.
fn lines_bytes(
    alloc: Global,
    set: &ModelSet,
    records: &Records,
    interfaces: &[&Interface],
) -> Result<u64, OutOfMemory>
    requires sound { BreaksNoRule set.now }
    requires ordered { InOrder set.now }
    requires records { AreRecorded set.now records.now }
    requires there { (q : Interface) → Contains (map (λ i. i.now) interfaces.now) q → IsThere set.now q }
    ensures { IfOk result (λ bytes. bytes ≡ capped (sum_by (λ i. line_of set.now i.now) interfaces.now)) }
{
    let mut sum: u64 = 0;
    'interfaces: for interface in interfaces {
        let bytes = line_bytes(alloc, set, records, interface)?;
        sum = sum.saturating_add(bytes);
    }
    Ok(sum)
}

/// The bytes of the texts of an interface and its ancestors, and of those that its components name and their ancestors.
pub fn share(
    alloc: Global,
    set: &ModelSet,
    records: &Records,
    interface: &Interface,
) -> Result<u64, OutOfMemory>
    requires sound { BreaksNoRule set.now }
    requires ordered { InOrder set.now }
    requires records { AreRecorded set.now records.now }
    requires there { IsThere set.now interface.now }
    ensures { IfOk result (λ bytes. bytes ≡ capped (share_of set.now interface.now)) }
{
    let ancestors = ancestors(alloc, set, interface)?;
    let own = text_bytes(records, ancestors.as_slice());
    let parts = parts(alloc, set, ancestors.as_slice())?;
    let others = lines_bytes(alloc, set, records, parts.as_slice())?;
    Ok(own.saturating_add(others))
}
