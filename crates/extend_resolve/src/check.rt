//! Whether new interfaces may join a set.

ghost use Rattle.std.specs.Prelude.{◌≡◌, None, IfOk, MatchResult};
ghost use Rattle.std.specs.List.{AllByRecursion};
ghost use Rattle.dtdl_terms.specs.Sets.{interface_at};
ghost use Rattle.extend_resolve.specs.Breaches.{IsSound, RefusesSet};
ghost use Rattle.extend_resolve.specs.Machinery.Judges.{FindsFirstSetBreach};

use crate::end::SetEnd;
use crate::first::Found;
use crate::judge::Judge;
use dt_base::OutOfMemory;
use dtdl_terms::{ModelSet, Uploaded};
use std::alloc::Global;

/// Judges new interfaces together with a set (this project's own rules, by the limits of DTDL v2, "Interface"), none of
/// which has an identifier of the set. `Err` gives the first breach, by the position of the new interface, the place in its
/// text and the rule.
pub fn check_set(alloc: Global, set: &ModelSet, new: &[Uploaded]) -> Result<(), SetEnd>
    requires apart { AllByRecursion (λ u. interface_at u.interface.id set.now ≡ None) new.now }
    ensures { MatchResult result (λ _. IsSound set.now new.now) (RefusesSet set.now new.now) }
{
    match first_breach(alloc, set, new) {
        Ok(None) => Ok(()),
        Ok(Some((index, found))) => Err(SetEnd::Fault {
            index: index as u64,
            spot: found.spot,
            rule: found.rule,
        }),
        Err(OutOfMemory) => Err(SetEnd::OutOfMemory),
    }
}

/// The first of the new interfaces that breaks a rule, with its first breach.
fn first_breach(
    alloc: Global,
    set: &ModelSet,
    new: &[Uploaded],
) -> Result<Option<(usize, Found)>, OutOfMemory>
    requires apart { AllByRecursion (λ u. interface_at u.interface.id set.now ≡ None) new.now }
    ensures { IfOk result (FindsFirstSetBreach set.now new.now) }
{
    let judge = Judge::new(alloc, set, new)?;
    let mut scratch = judge.scratch()?;
    'new: for index in 0..new.len() {
        if let Some(found) = judge.first_of(&mut scratch, index, &new[index])? {
            return Ok(Some((index, found)));
        }
    }
    Ok(None)
}
