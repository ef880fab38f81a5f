//! Why a body was not read, and what a body without breach tells.

ghost use Rattle.std.specs.Prelude.{◌≡◌, IsSome, Some, MatchResult};
ghost use Rattle.dt_base.specs.declared.names.fault.NameFault.TheVariants as faults;
ghost use Rattle.json_tree.specs.View.{view};
ghost use Rattle.twin_value.specs.Breaches.{IsBodyBreach, HasNoBreach, EndsBy, text_under};
ghost use Rattle.twin_value.specs.Machinery.Views.{role_view};
ghost use Rattle.twin_value.specs.declared.end.BodyEnd.TheVariants as ends;

use crate::code::BodyCode;
use crate::fit::breach_of;
use crate::role::Role;
use crate::walk::first_in;
use dt_base::OutOfMemory;
use dt_base::names::NameFault;
use json_tree::{Place, Tree, members_in, text_at};
use std::alloc::Global;
use thiserror::Error;

/// Why a body was not read (this project's own).
#[derive(Debug, Drop, Error)]
pub enum BodyEnd {
    /// The body has a breach, and this is its first: in preorder, and at one place in the order of the codes.
    #[error("the body does not fit its model")]
    Fault { place: Place, code: BodyCode },
    /// No memory was found, which says nothing of the body.
    #[error("out of memory")]
    OutOfMemory,
}

impl From<OutOfMemory> for BodyEnd {
    ghost from_gives = { λ _ e. e ≡ ends.OutOfMemory };

    fn from(_error: OutOfMemory) -> BodyEnd {
        BodyEnd::OutOfMemory
    }
}

/// Refuses a body in a role that has a breach.
pub fn judge_body(alloc: Global, tree: &Tree, role: Role) -> Result<(), BodyEnd>
    ensures { MatchResult result (λ _. HasNoBreach (IsBodyBreach (role_view role.entry) (view tree.now))) (EndsBy (IsBodyBreach (role_view role.entry) (view tree.now))) }
{
    match first_in(tree, alloc, role)? {
        Some(found) => {
            let (place, code) = breach_of(found);
            Err(BodyEnd::Fault { place, code })
        }
        None => Ok(()),
    }
}

/// The text that an object has under a key.
pub fn text_under<'a>(tree: &'a Tree, key: &str) -> &'a str
    requires { IsSome (text_under key.now (view tree.now)) }
    ensures { text_under key.now (view tree.now) ≡ Some result.now }
{
    match text_at(members_in(tree), key) {
        Some(text) => text,
        None => unreachable!(),
    }
}

/// Why a text of the grammar was not read: for want of memory alone.
pub fn want_of_memory(fault: NameFault) -> OutOfMemory
    requires { fault ≡ faults.OutOfMemory }
{
    match fault {
        NameFault::OutOfMemory => OutOfMemory,
        _ => unreachable!(),
    }
}
