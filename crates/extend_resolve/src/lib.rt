//! Sets of interfaces: the rules on extension and components over whole sets, with the first breach, and who is whose
//! ancestor.
#![tactic(auto)]

mod ancestry;
mod check;
mod closure;
mod depths;
mod end;
mod first;
mod gathering;
mod judge;
mod laws;
mod names;
mod owners;
mod rule;
mod world;

pub use ancestry::{MOST_STEPS, is_a};
pub use check::check_set;
pub use end::SetEnd;
pub use laws::{ancestors_of_ancestors, breach_or_none, one_first_breach};
pub use rule::SetRule;
