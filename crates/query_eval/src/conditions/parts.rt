//! Where one text stands in another.

ghost use Rattle.std.specs.Prelude.{◌≡◌};
ghost use Rattle.graph_steps.specs.Conditions.{is_part, is_text_part};
ghost use Rattle.query_eval.specs.conditions.Machinery.Plain.{plain_value};

use crate::conditions::comparing::Plain;
use memchr::memmem;
use query_terms::PartKind;

/// Whether bytes stand in others at the front, at the end, or anywhere.
fn is_part(kind: PartKind, whole: &[u8], part: &[u8]) -> bool
    ensures { result ≡ is_part kind whole.now part.now }
{
    match kind {
        PartKind::Starts => whole.starts_with(part),
        PartKind::Ends => whole.ends_with(part),
        PartKind::Contains => memmem::find(whole, part).is_some(),
    }
}

/// Whether two values are texts and the second stands so in the first.
pub(crate) fn is_text_part(kind: PartKind, whole: Plain<'_>, part: Plain<'_>) -> bool
    ensures { result ≡ is_text_part kind (plain_value whole.entry) (plain_value part.entry) }
{
    match whole {
        Plain::Word(whole) => match part {
            Plain::Word(part) => is_part(kind, whole.as_bytes(), part.as_bytes()),
            Plain::Number(_) | Plain::Truth(_) | Plain::Other => false,
        },
        Plain::Number(_) | Plain::Truth(_) | Plain::Other => false,
    }
}
