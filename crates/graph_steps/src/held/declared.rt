//! What a model declares of a relationship.

ghost use Rattle.std.specs.Prelude.{◌≡◌};
ghost use Rattle.std.specs.Option.{option_copied};
ghost use Rattle.dtdl_terms.specs.TermViews.{kind_term};
ghost use Rattle.graph_steps.specs.Typed.{target_of, most_of};
ghost use Rattle.twin_value.specs.Breaches.{as_link, link_called};
ghost use Rattle.twin_value.specs.Named.{content_called};

use dt_base::Text;
use dt_base::names::Dtmi;
use dtdl_terms::{ContentKind, ResolvedContent};

/// The content of this name.
fn find_content<'a>(contents: &'a [ResolvedContent], name: &Text) -> Option<&'a ResolvedContent>
    ensures { option_copied result ≡ content_called name.now contents.now }
{
    'contents: for content in contents {
        if content.content.name.as_str() == name.as_str() {
            return Some(content);
        }
    }
    None
}

/// The content, where it is a relationship.
#[tactic(auto, using(dtdl_terms::proofs::TermViews::terms))]
fn as_link(content: Option<&ResolvedContent>) -> Option<&ResolvedContent>
    ensures { option_copied result ≡ as_link (option_copied content.entry) }
{
    let found = content?;
    match &found.content.kind {
        ContentKind::Relationship { .. } => content,
        ContentKind::Telemetry { .. } => None,
        ContentKind::Property { .. } => None,
        ContentKind::Command { .. } => None,
        ContentKind::Component { .. } => None,
    }
}

/// The relationship of this name. Takes no memory.
pub fn link_called<'a>(contents: &'a [ResolvedContent], name: &Text) -> Option<&'a ResolvedContent>
    ensures { option_copied result ≡ link_called name.now contents.now }
{
    as_link(find_content(contents, name))
}

/// The target that a relationship declares. Takes no memory.
#[tactic(auto, using(dtdl_terms::proofs::TermViews::terms))]
pub fn target_of(kind: &ContentKind) -> Option<&Dtmi>
    ensures { option_copied result ≡ target_of (kind_term kind.now) }
{
    match kind {
        ContentKind::Relationship { target, .. } => target.as_ref(),
        ContentKind::Telemetry { .. } => None,
        ContentKind::Property { .. } => None,
        ContentKind::Command { .. } => None,
        ContentKind::Component { .. } => None,
    }
}

/// The most relationships of its name out of one twin that a relationship declares. Takes no memory.
#[tactic(auto, using(dtdl_terms::proofs::TermViews::terms))]
pub fn most_of(kind: &ContentKind) -> Option<u32>
    ensures { result ≡ most_of (kind_term kind.now) }
{
    match kind {
        ContentKind::Relationship { max, .. } => *max,
        ContentKind::Telemetry { .. } => None,
        ContentKind::Property { .. } => None,
        ContentKind::Command { .. } => None,
        ContentKind::Component { .. } => None,
    }
}
