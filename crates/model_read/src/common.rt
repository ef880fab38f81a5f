//! What every element may have.

ghost use Rattle.std.specs.Prelude.{◌≡◌, IfOk};
ghost use Rattle.json_tree.specs.View.{members_view};
ghost use Rattle.local_rules.specs.Declarations.{HasCommon};
ghost use Rattle.model_read.specs.Machinery.Shapes.{CommonShape};

use crate::localized::localized_at;
use crate::texts::{optional_id, optional_text};
use dt_base::OutOfMemory;
use dtdl_terms::{Boxed, Common};
use json_tree::Member;
use std::alloc::Global;

/// What an element has of what every element may have.
pub fn common_of(alloc: Global, members: &[Member]) -> Result<Common, OutOfMemory>
    requires { CommonShape (members_view members.now) }
    ensures { IfOk result (λ c. HasCommon (members_view members.now) c) }
{
    let id = optional_id(alloc, members, "@id")?;
    let Ok(comment) = optional_text(alloc, members, "comment") else {
        drop(id);
        return Err(OutOfMemory);
    };
    let Ok(description) = localized_at(alloc, members, "description") else {
        drop((id, comment));
        return Err(OutOfMemory);
    };
    let Ok(display_name) = localized_at(alloc, members, "displayName") else {
        drop((id, comment, description));
        return Err(OutOfMemory);
    };
    Ok(Common {
        id,
        comment,
        description,
        display_name,
    })
}

/// The same, in memory of its own.
pub fn boxed_common_of(alloc: Global, members: &[Member]) -> Result<Boxed<Common>, OutOfMemory>
    requires { CommonShape (members_view members.now) }
    ensures { IfOk result (λ c. HasCommon (members_view members.now) c) }
{
    let common = common_of(alloc, members)?;
    Ok(Boxed::new(alloc, common)?)
}
