//! The set of the interfaces, with their records and who uses whom.

ghost use Rattle.std.specs.Prelude.{◌≡◌, ◌&&◌, true, false, cond, map, Some, None, OnErr, OnOk};
ghost use Rattle.std.specs.List.{AllByRecursion};
ghost use Rattle.std.specs.Ordering.{is_eq};
ghost use Rattle.dt_base.specs.names.Grammar.{Identifier, id_cmp};
ghost use Rattle.dtdl_terms.specs.Sets.{InOrder, interface_at, with_interface};
ghost use Rattle.model_life.specs.sets.Changing.{with_uploads, without_interfaces, is_one_of, HaveDistinctIds};
ghost use Rattle.model_life.specs.resolution.Resolving.{LacksNone};
ghost use Rattle.model_life.specs.Models.{with_new_models};
ghost use Rattle.model_life.specs.Machinery.Keeping.{record_at, models_of, fresh_record, HaveTexts, UsersAreWithin, user_at, RecordsFit};

use crate::records::{Record, Records};
use crate::users::{Users, link_all, unlink_all};
use canon_text::canon_interface;
use dt_base::names::Dtmi;
use dt_base::{List, OutOfMemory, Text};
use dtdl_terms::{Interface, ModelSet, Uploaded};
use std::alloc::Global;

/// Adds the record of an interface that is new. After `Err` it may be there.
fn add_record(
    records: &mut Records,
    alloc: Global,
    interface: &Interface,
) -> Result<(), OutOfMemory>
    ensures record { OnOk result ((q : Identifier) → record_at q records.new ≡ cond (is_eq (id_cmp q interface.now.id)) (Some (fresh_record interface.now)) (record_at q records.old)) }
    ensures others { (q : Identifier) → is_eq (id_cmp q interface.now.id) ≡ false → record_at q records.new ≡ record_at q records.old }
{
    let bytes = canon_interface(alloc, interface)?.len() as u64;
    let text = Text::from_str(alloc, interface.id.as_str())?;
    let id = interface.id.copy(alloc)?;
    records.insert(
        id,
        Record {
            text,
            decommissioned: false,
            bytes,
        },
    )?;
    Ok(())
}

/// Puts an interface into the set, with a record. After `Err` the record may be left in.
fn enter(
    set: &mut ModelSet,
    records: &mut Records,
    alloc: Global,
    interface: Interface,
) -> Result<(), OutOfMemory>
    requires { interface_at interface.id set.old ≡ None }
    ensures ok { OnOk result (set.new ≡ with_interface interface set.old) }
    ensures record { OnOk result ((q : Identifier) → record_at q records.new ≡ cond (is_eq (id_cmp q interface.id)) (Some (fresh_record interface)) (record_at q records.old)) }
    ensures err { OnErr result (set.new ≡ set.old) }
    ensures others { (q : Identifier) → is_eq (id_cmp q interface.id) ≡ false → record_at q records.new ≡ record_at q records.old }
{
    let Ok(()) = add_record(records, alloc, &interface) else {
        drop(interface);
        return Err(OutOfMemory);
    };
    set.insert(interface)?;
    Ok(())
}

/// Puts the interfaces of uploads into the set, with their records. After `Err` some may be left in.
fn enter_all(
    set: &mut ModelSet,
    records: &mut Records,
    alloc: Global,
    new: List<Uploaded>,
) -> Result<(), OutOfMemory>
    requires absent { AllByRecursion (λ u. interface_at u.interface.id set.old ≡ None) new }
    requires apart { HaveDistinctIds (map (λ u. u.interface) new) }
    requires ordered { InOrder set.old }
    ensures ok { OnOk result (set.new ≡ with_uploads new set.old) }
    ensures records { OnOk result (AllByRecursion (λ u. record_at u.interface.id records.new ≡ Some (fresh_record u.interface)) new) }
    ensures ordered { InOrder set.new }
    ensures interfaces { (q : Identifier) → is_one_of (map (λ u. u.interface.id) new) q ≡ false → interface_at q set.new ≡ interface_at q set.old }
    ensures others { (q : Identifier) → is_one_of (map (λ u. u.interface.id) new) q ≡ false → record_at q records.new ≡ record_at q records.old }
{
    'new: for upload in new.items {
        enter(set, records, alloc, upload.interface)?;
    }
    Ok(())
}

/// Takes interfaces out of the set, with their records. Takes no memory.
fn leave_all(set: &mut ModelSet, records: &mut Records, ids: &[Dtmi])
    requires { InOrder set.old }
    ensures set { set.new ≡ without_interfaces ids.now set.old }
    ensures records { (q : Identifier) → record_at q records.new ≡ cond (is_one_of ids.now q) None (record_at q records.old) }
{
    'ids: for id in ids {
        let interface = set.remove(id);
        drop(interface);
        records.remove(id);
    }
}

/// Puts the interfaces of uploads into the set, with their records and as users. `Err` is want of memory: nothing changes.
pub fn grow(
    set: &mut ModelSet,
    records: &mut Records,
    users: &mut Users,
    alloc: Global,
    new: List<Uploaded>,
    ids: &[Dtmi],
) -> Result<(), OutOfMemory>
    requires ids { ids.now ≡ map (λ u. u.interface.id) new }
    requires absent { AllByRecursion (λ u. interface_at u.interface.id set.old ≡ None) new }
    requires apart { HaveDistinctIds (map (λ u. u.interface) new) }
    requires ordered { InOrder set.old }
    requires whole { LacksNone (with_uploads new set.old) }
    requires fits { RecordsFit set.old records.old users.old }
    ensures ok { OnOk result (set.new ≡ with_uploads new set.old) }
    ensures models { OnOk result (models_of set.new records.new ≡ with_new_models new (models_of set.old records.old)) }
    ensures err { OnErr result (set.new ≡ set.old) }
    ensures same { OnErr result (models_of set.new records.new ≡ models_of set.old records.old) }
    ensures fits { RecordsFit set.new records.new users.new }
{
    let Ok(_) = enter_all(set, records, alloc, new) else {
        leave_all(set, records, ids);
        return Err(OutOfMemory);
    };
    let Ok(_) = link_all(users, alloc, set, records, ids) else {
        shrink(set, records, users, ids);
        return Err(OutOfMemory);
    };
    Ok(())
}

/// Takes interfaces out of the set, with their records and as users. Takes no memory.
pub fn shrink(set: &mut ModelSet, records: &mut Records, users: &mut Users, ids: &[Dtmi])
    requires ordered { InOrder set.old }
    requires texts { HaveTexts set.old records.old }
    requires within { UsersAreWithin set.old users.old }
    ensures set { set.new ≡ without_interfaces ids.now set.old }
    ensures records { (q : Identifier) → record_at q records.new ≡ cond (is_one_of ids.now q) None (record_at q records.old) }
    ensures users { (used user : Identifier) → user_at used user users.new ≡ cond (is_one_of ids.now user) None (user_at used user users.old) }
{
    unlink_all(users, set, records, ids);
    leave_all(set, records, ids);
}
