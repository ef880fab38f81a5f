//! Queries.

ghost use Rattle.std.specs.Prelude.{◌≡◌, ◌+◌, ◌<◌, ◌*◌, ◌^◌, length, IfOk};
ghost use Rattle.query_terms.specs.Queries.{asked, key_length};

use crate::cond::Cond;
use crate::copies::{copy_items, copy_joins, copy_text, copy_texts};
use dt_base::{List, OutOfMemory, Text};
use std::alloc::Global;

/// A relationship and its target twin that belong to a row.
#[derive(Debug, Drop)]
pub struct Join {
    /// The alias of the target twin.
    pub target: Text,
    /// The alias of the source twin.
    pub from: Text,
    /// The relationship's name.
    pub name: Text,
    /// The alias of the relationship.
    pub rel: Option<Text>,
}

impl Join {
    /// An equal join in memory of its own.
    pub fn copy(&self, alloc: Global) -> Result<Join, OutOfMemory>
        ensures { IfOk result (λ copy. copy ≡ self.now) }
    {
        let target = self.target.copy(alloc)?;
        let from = self.from.copy(alloc)?;
        let name = self.name.copy(alloc)?;
        let rel = copy_text(alloc, &self.rel)?;
        Ok(Join {
            target,
            from,
            name,
            rel,
        })
    }
}

/// A value that is given of each row, and its name there.
#[derive(Debug, Drop)]
pub struct Item {
    pub path: List<Text>,
    pub out: Text,
}

impl Item {
    /// An equal item in memory of its own.
    pub fn copy(&self, alloc: Global) -> Result<Item, OutOfMemory>
        ensures { IfOk result (λ copy. copy ≡ self.now) }
    {
        let path = copy_texts(alloc, self.path.as_slice())?;
        let out = self.out.copy(alloc)?;
        Ok(Item { path, out })
    }
}

/// What is given of the rows.
#[derive(Debug, Drop)]
pub enum Projection {
    /// How many they are.
    Count,
    /// Each whole; with `top` only so many.
    Star { top: Option<u32> },
    /// These values of each; with `top` only of so many.
    Items { top: Option<u32>, items: List<Item> },
}

impl Projection {
    /// An equal projection in memory of its own.
    pub fn copy(&self, alloc: Global) -> Result<Projection, OutOfMemory>
        ensures { IfOk result (λ copy. copy ≡ self.now) }
    {
        match self {
            Projection::Count => Ok(Projection::Count),
            Projection::Star { top } => Ok(Projection::Star { top: *top }),
            Projection::Items { top, items } => Ok(Projection::Items {
                top: *top,
                items: copy_items(alloc, items.as_slice())?,
            }),
        }
    }
}

/// A query: which twins or relationships, under which condition, and what is given of them. Contracts see it
/// without where it lies in memory, by `asked`.
#[derive(Debug, Drop)]
pub struct Query {
    pub select: Projection,
    /// Whether the rows are relationships, and not twins.
    pub relationships: bool,
    /// The alias of the source.
    pub alias: Option<Text>,
    pub joins: List<Join>,
    pub cond: Option<Cond>,
}

impl Query {
    /// An equal query in memory of its own.
    pub fn copy(&self, alloc: Global) -> Result<Query, OutOfMemory>
        ensures { IfOk result (λ copy. asked copy ≡ asked self.now) }
    {
        let select = self.select.copy(alloc)?;
        let alias = copy_text(alloc, &self.alias)?;
        let joins = copy_joins(alloc, self.joins.as_slice())?;
        let cond = match &self.cond {
            Some(cond) => Some(cond.copy(alloc)?),
            None => None,
        };
        Ok(Query {
            select,
            relationships: self.relationships,
            alias,
            joins,
            cond,
        })
    }

    /// How many ids the key of a row has: none for a count, for relationships the source and the relationship,
    /// for twins the twin and, for each join, the relationship and its target. Takes no memory.
    pub fn key_len(&self) -> u32
        requires { length self.now.joins < 2 ^ 30 }
        ensures { result ≡ key_length (asked self.now) }
    {
        match self.select {
            Projection::Count => 0,
            _ => {
                if self.relationships {
                    2
                } else {
                    1 + 2 * self.joins.len() as u32
                }
            }
        }
    }
}
