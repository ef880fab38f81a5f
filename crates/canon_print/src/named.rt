//! What lists are put in order by.

ghost use Rattle.std.specs.Prelude.{◌≡◌, ℕ, List};
ghost use Rattle.dt_base.specs.names.Grammar.{dtmi_text};
ghost use Rattle.dtdl_terms.specs.Distinct.{schema_id};
ghost use Rattle.dtdl_terms.specs.TermViews.{schema_term};
ghost use Rattle.canon_text.specs.Canonical.{id_text};

use dt_base::names::Dtmi;
use dtdl_terms::{Common, Content, Entry, EnumEntry, Interface, Payload, Schema};

/// What stands in a list in the order of its name.
pub(crate) trait Named {
    ghost name_of: { Self → List ℕ };

    /// The name by which it stands in order.
    fn name(&self) -> &str
        ensures { result.now ≡ name_of self.now };
}

impl Named for Entry {
    ghost name_of = { λ e. e.language };

    fn name(&self) -> &str {
        self.language.as_str()
    }
}

impl Named for EnumEntry {
    ghost name_of = { λ e. e.name };

    fn name(&self) -> &str {
        self.name.as_str()
    }
}

impl Named for Payload {
    ghost name_of = { λ p. p.name };

    fn name(&self) -> &str {
        self.name.as_str()
    }
}

impl Named for Content {
    ghost name_of = { λ c. c.name };

    fn name(&self) -> &str {
        self.name.as_str()
    }
}

impl Named for Dtmi {
    ghost name_of = { dtmi_text };

    fn name(&self) -> &str {
        self.as_str()
    }
}

impl Named for Interface {
    ghost name_of = { λ i. dtmi_text i.id };

    fn name(&self) -> &str {
        self.id.as_str()
    }
}

impl Named for Schema {
    ghost name_of = { λ s. id_text (schema_id (schema_term s)) };

    fn name(&self) -> &str {
        own_id(self)
    }
}

/// The identifier of a complex schema.
fn own_id(schema: &Schema) -> &str
    ensures { result.now ≡ id_text (schema_id (schema_term schema.now)) }
{
    match schema {
        Schema::Primitive(_) | Schema::Named(_) => "",
        Schema::Array { common, .. }
        | Schema::Enumeration { common, .. }
        | Schema::Map { common, .. }
        | Schema::Object { common, .. } => common_id(common.get()),
    }
}

/// The identifier of an element, or nothing.
fn common_id(common: &Common) -> &str
    ensures { result.now ≡ id_text common.now.id }
{
    match &common.id {
        Some(id) => id.as_str(),
        None => "",
    }
}
