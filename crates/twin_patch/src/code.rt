//! The codes of patches (this project's own).

ghost use Rattle.std.specs.Prelude.{◌≡◌};
ghost use Rattle.twin_patch.specs.Codes.{code_text};

/// What is wrong with a patch. At one operation the codes are judged in this order, but for `NotAMark`, which is judged
/// after all others, and `NoTarget`, which `apply` alone answers.
#[derive(Clone, Copy, Debug, PartialEq, Eq, Hash)]
pub enum PatchCode {
    /// The patch is no list. It stands at index 0.
    NotAList,
    /// The operation is no object.
    NotAnObject,
    /// The member `op` is not `add`, `replace` or `remove`.
    BadOp,
    /// The member `path` is not there, is no JSON Pointer (RFC 6901), or has no part or more than 64.
    BadPath,
    /// `add` or `replace` has no member `value`.
    MissingValue,
    /// The first part of the path begins with `$`, and it is no `replace` of `/$metadata/$model` in a patch of a twin.
    Protected,
    /// The patch of a model is not one `add` or `replace` of `/decommissioned` with a truth value. It stands at index 0.
    NotAMark,
    /// The need of an operation is not met.
    NoTarget,
}

impl PatchCode {
    /// The code as it is printed.
    pub fn text(&self) -> &'static str
        ensures { result.now ≡ code_text self.now }
    {
        match self {
            PatchCode::NotAList => "NotAList",
            PatchCode::NotAnObject => "NotAnObject",
            PatchCode::BadOp => "BadOp",
            PatchCode::BadPath => "BadPath",
            PatchCode::MissingValue => "MissingValue",
            PatchCode::Protected => "Protected",
            PatchCode::NotAMark => "NotAMark",
            PatchCode::NoTarget => "NoTarget",
        }
    }
}
