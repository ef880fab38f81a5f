//! Where a reader of tokens stands in a query.

ghost use Rattle.std.specs.Prelude.{◌≡◌, [], ◌∷◌, ◌++◌, OnOk, OnErr, MatchOption};

use crate::names::{Notes, PlacedName};
use dt_base::names::Dtmi;
use dt_base::{List, OutOfMemory, Text};
use query_terms::{Compare, Cond, Item, Join, Kind, Literal, Operand, PartKind, Projection};
use std::alloc::Global;
use std::marker::Model;

/// A condition that contracts see without where it lies in memory.
#[derive(Drop)]
pub struct Built {
    pub cond: Cond,
}

impl Model for Built {
    ghost use Rattle.query_terms.specs.Conditions.{Condition, condition};
    ghost use Rattle.query_terms.specs.Codes.{condition_code};

    ghost Value = { Condition };

    ghost coded = { condition_code };

    ghost view = { λ b. condition b.cond };
}

/// What stands before the condition.
#[derive(Drop)]
pub struct Head {
    pub select: Projection,
    pub relationships: bool,
    pub alias: Option<Text>,
    pub joins: List<Join>,
}

/// What stands before a factor in its parentheses: the terms before the last OR, the factors before the last AND,
/// and how many NOTs; and how many parentheses and NOTs may be opened before these.
#[derive(Drop)]
pub struct Chain {
    pub either: Option<Built>,
    pub both: Option<Built>,
    pub nots: u32,
    pub room: u32,
}

/// What stands before each open parenthesis. Contracts see a list, the innermost first.
#[derive(Drop)]
pub struct Chains {
    items: Vec<Chain>,
}

impl Model for Chains {
    ghost use Rattle.std.specs.Prelude.{List, reverse};
    ghost use Rattle.std.specs.Coded.{coded_list};
    ghost use Rattle.query_grammar.specs.declared.state.Chain.{Chain};
    ghost use Rattle.query_grammar.specs.contracts.state.Chain as chain;

    ghost Value = { List Chain };

    ghost coded = { coded_list chain.the_row.coded };

    ghost view = { λ s. reverse s.items.items };
}

impl Chains {
    /// No open parentheses.
    pub fn new(alloc: Global) -> Chains
        ensures { result ≡ [] }
    {
        Chains {
            items: Vec::new(alloc),
        }
    }

    /// One more open parenthesis.
    pub fn push(&mut self, chain: Chain) -> Result<(), OutOfMemory>
        ensures ok { OnOk result (self.new ≡ chain ∷ self.old) }
    {
        self.items.push(chain)?;
        Ok(())
    }

    /// What stands before the innermost open parenthesis, which is closed.
    pub fn pop(&mut self) -> Option<Chain>
        ensures { MatchOption result (self.old ≡ []) (λ chain. self.old ≡ chain ∷ self.new) }
    {
        self.items.pop()
    }
}

/// What stands around a factor: what is before the condition, what is before it in its own parentheses and in those
/// around it, and how many parentheses and NOTs may still be opened.
#[derive(Drop)]
pub struct Around {
    pub head: Head,
    pub chain: Chain,
    pub chains: Chains,
    pub room: u32,
}

/// What an operand is read for.
#[derive(Drop)]
pub enum Goal {
    Left,
    Right(Operand, Compare),
    Is(Kind),
    First(PartKind),
    Second(PartKind, Operand),
}

/// Where a reader of tokens stands, and what it has read.
#[derive(Drop)]
pub enum State {
    Start,
    Select,
    CountOpen,
    CountClose,
    TopOpen,
    TopNumber,
    TopClose(u32),
    BehindTop(u32),
    BehindSelect(Notes, Projection),
    ItemStart(Notes, Option<u32>, List<Item>),
    ItemPath(Notes, Option<u32>, List<Item>, List<Text>, PlacedName),
    ItemField(Notes, Option<u32>, List<Item>, List<Text>),
    ItemAs(Notes, Option<u32>, List<Item>, List<Text>),
    BehindItem(Notes, Option<u32>, List<Item>),
    Source(Notes, Projection),
    RelationshipsAlias(Notes, Projection),
    BehindRelationships(Notes, Head),
    TwinsAlias(Notes, Projection),
    BehindTwins(Notes, Head),
    JoinTarget(Notes, Head),
    JoinRelated(Notes, Head, Text),
    JoinSource(Notes, Head, Text),
    JoinDot(Notes, Head, Text, Text),
    JoinName(Notes, Head, Text, Text),
    JoinAlias(Notes, Head, Text, Text, Text),
    Factor(Notes, Around),
    FunctionOpen(Notes, Around, Goal),
    Operand(Notes, Around, Goal),
    Path(Notes, Around, Goal, List<Text>),
    Field(Notes, Around, Goal, List<Text>),
    Behind(Notes, Around, Goal, Operand),
    ListOpen(Notes, Around, Operand, bool),
    ListItem(Notes, Around, Operand, bool, List<Literal>),
    BehindListItem(Notes, Around, Operand, bool, List<Literal>),
    ModelOpen(Notes, Around, PlacedName),
    ModelStart(Notes, Around, PlacedName),
    ModelComma(Notes, Around, Text),
    ModelText(Notes, Around, Option<Text>),
    BehindModel(Notes, Around, Option<Text>, Dtmi),
    Exact(Notes, Around, Option<Text>, Dtmi),
    ModelClose(Notes, Around, Option<Text>, Dtmi),
    BehindFactor(Notes, Head, Option<Built>, Built, Chains, u32),
}
