//! Laws of sets of interfaces that change: the rules on a set depend on what stands under each identifier alone, so that a
//! set which breaks none breaks none where sound interfaces come, and where interfaces go that no other names.

mod laws;

pub use laws::{
    join_soundly, judged_as_uploads, one_judgement, rest_is_sound, rest_without_one_is_sound,
};
