//! The names in a query's text that aliases and their uses are judged by.

ghost use Rattle.std.specs.Prelude.{◌≡◌, IfOk};
ghost use Rattle.query_grammar.specs.Grammar.{no_notes};
ghost use Rattle.query_grammar.specs.Machinery.Steps.{noting_alias, noting_output, noting_use};

use dt_base::{List, OutOfMemory, Text};
use std::alloc::Global;
use std::marker::Model;

/// A name and the byte of the text at which it stands. Contracts see it as a pair.
#[derive(Drop)]
pub struct PlacedName {
    pub at: u32,
    pub name: Text,
}

impl Model for PlacedName {
    ghost use Rattle.std.specs.Prelude.{ℕ, List};
    ghost use Rattle.std.specs.Coded.{coded_list, coded_ℕ, coded×};

    ghost Value = { ℕ × List ℕ };

    ghost coded = { coded× coded_ℕ (coded_list coded_ℕ) };

    ghost view = { λ s. (s.at, s.name) };
}

/// What a name that is used refers to, which it has to be bound to.
#[derive(Clone, Copy)]
pub enum Referent {
    /// It begins a path.
    Path,
    /// It names the source of a join, behind so many other joins.
    Source(usize),
    /// It names the twin of a test for a model.
    Model,
    /// It is the name of a test for a model without an alias.
    Bare,
}

/// A use of a name.
#[derive(Drop)]
pub struct Use {
    pub placed: PlacedName,
    pub referent: Referent,
}

/// The names that were met, each list in the order of the text: the aliases of the source and of the joins, the
/// names that items have in the answer, and the uses of aliases.
#[derive(Drop)]
pub struct Notes {
    pub aliases: List<PlacedName>,
    pub outputs: List<PlacedName>,
    pub uses: List<Use>,
}

impl Notes {
    /// No names yet. Takes no memory.
    pub fn new(alloc: Global) -> Notes
        ensures { result ≡ no_notes }
    {
        Notes {
            aliases: List::new(alloc),
            outputs: List::new(alloc),
            uses: List::new(alloc),
        }
    }

    /// These names and one alias more.
    pub fn with_alias(self, placed: PlacedName) -> Result<Notes, OutOfMemory>
        ensures { IfOk result (λ n. n ≡ noting_alias self placed) }
    {
        let Notes {
            mut aliases,
            outputs,
            uses,
        } = self;
        aliases.push(placed)?;
        Ok(Notes {
            aliases,
            outputs,
            uses,
        })
    }

    /// These names and one name of an item more.
    pub fn with_output(self, placed: PlacedName) -> Result<Notes, OutOfMemory>
        ensures { IfOk result (λ n. n ≡ noting_output self placed) }
    {
        let Notes {
            aliases,
            mut outputs,
            uses,
        } = self;
        outputs.push(placed)?;
        Ok(Notes {
            aliases,
            outputs,
            uses,
        })
    }

    /// These names and one use more.
    pub fn with_use(self, placed: PlacedName, referent: Referent) -> Result<Notes, OutOfMemory>
        ensures { IfOk result (λ n. n ≡ noting_use self placed referent) }
    {
        let Notes {
            aliases,
            outputs,
            mut uses,
        } = self;
        uses.push(Use { placed, referent })?;
        Ok(Notes {
            aliases,
            outputs,
            uses,
        })
    }
}
