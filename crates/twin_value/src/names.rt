//! The identifiers of schemas.

ghost use Rattle.std.specs.Prelude.{◌≡◌};
ghost use Rattle.std.specs.Option.{option_map};
ghost use Rattle.dt_base.specs.names.Grammar.{dtmi_text};

use crate::index::Keyed;
use dt_base::names::Dtmi;
use dtdl_terms::Schema;

impl Keyed for Schema {
    ghost use Rattle.std.specs.Option.{option_map};
    ghost use Rattle.dt_base.specs.names.Grammar.{dtmi_text};
    ghost use Rattle.dtdl_terms.specs.Distinct.{schema_id};
    ghost use Rattle.dtdl_terms.specs.TermViews.{schema_term};

    ghost key_of = { λ s. option_map dtmi_text (schema_id (schema_term s)) };

    #[tactic(auto, using(crate::proofs::Schemas::terms))]
    fn key(&self) -> Option<&str> {
        match self {
            Schema::Primitive(_) => None,
            Schema::Named(_) => None,
            Schema::Array { common, .. } => id_text(&common.get().id),
            Schema::Enumeration { common, .. } => id_text(&common.get().id),
            Schema::Map { common, .. } => id_text(&common.get().id),
            Schema::Object { common, .. } => id_text(&common.get().id),
        }
    }
}

/// The text of an identifier, where there is one.
fn id_text(id: &Option<Dtmi>) -> Option<&str>
    ensures { option_map (λ t. t.now) result ≡ option_map dtmi_text id.now }
{
    match id {
        Some(id) => Some(id.as_str()),
        None => None,
    }
}
