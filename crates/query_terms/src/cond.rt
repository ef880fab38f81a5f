//! Conditions.

ghost use Rattle.std.specs.Prelude.{◌≡◌, ◌+◌, ◌*◌, ◌<◌, true, false, IfOk};
ghost use Rattle.query_terms.specs.Conditions.{condition};
ghost use Rattle.query_terms.specs.Machinery.Weights.{has_parts, weight};

use crate::copying::{copy_part, parts_of};
use crate::operand::{Compare, Literal, Operand};
use dt_base::names::Dtmi;
use dt_base::{List, OutOfMemory, Text};
use std::alloc::Global;
use std::mem;

/// What kind of value a path leads to.
#[derive(Clone, Copy, Debug, PartialEq, Eq)]
pub enum Kind {
    /// Any value at all.
    Defined,
    /// No value.
    Null,
    Number,
    Word,
    Truth,
    Object,
    /// A number, a text or a truth value.
    Primitive,
}

impl Kind {
    /// The same kind.
    pub fn copy(&self) -> Kind
        ensures { result ≡ self.now }
    {
        *self
    }
}

/// Where in the first text the second one stands.
#[derive(Clone, Copy, Debug, PartialEq, Eq)]
pub enum PartKind {
    Starts,
    Ends,
    Contains,
}

impl PartKind {
    /// The same kind of part.
    pub fn copy(&self) -> PartKind
        ensures { result ≡ self.now }
    {
        *self
    }
}

/// What a row must fulfil. Contracts see a condition without where it lies in memory, by `condition`. A condition may
/// nest as deep as memory allows: letting one go and copying it take no recursion.
#[derive(Debug)]
pub enum Cond {
    /// One of the two, or both.
    Or(Box<Cond>, Box<Cond>),
    /// Both.
    And(Box<Cond>, Box<Cond>),
    Not(Box<Cond>),
    Compare(Operand, Compare, Operand),
    /// The operand is one of the literals.
    Among(Operand, List<Literal>),
    /// The operand is none of the literals.
    NotAmong(Operand, List<Literal>),
    /// The path leads to a value of this kind.
    Is(Kind, List<Text>),
    /// The second operand is a part of the first.
    Part(PartKind, Operand, Operand),
    /// A twin is of a model, or with `exact` of this very version of it. Without an alias the twin is that of
    /// the source.
    OfModel {
        twin: Option<Text>,
        model: Dtmi,
        exact: bool,
    },
}

/// Turns a condition, where it has parts, so that its first part comes to stand beside it, and what stood beside it
/// within.
fn turn(left: &mut Cond, right: &mut Box<Cond>) -> bool
    ensures parts { result ≡ has_parts left.old }
    ensures same { result ≡ false → left.new ≡ left.old }
    ensures beside { result ≡ false → right.new ≡ right.old }
    ensures lighter { result ≡ true → 2 * weight right.new.value + weight left.new < 2 * weight left.old + weight right.old.value }
{
    match left {
        Cond::Or(first, second) => {
            mem::swap(first, right);
            mem::swap(first, second);
            true
        }
        Cond::And(first, second) => {
            mem::swap(first, right);
            mem::swap(first, second);
            true
        }
        Cond::Not(inner) => {
            mem::swap(inner, right);
            true
        }
        _ => false,
    }
}

/// What is left to be let go of two conditions, of which as little as can be is let go.
fn rest(mut left: Box<Cond>, mut right: Box<Cond>) -> Cond
    ensures { weight result < 2 * weight left.value + weight right.value }
{
    if turn(left.as_mut(), &mut right) {
        return Cond::And(right, left);
    }
    Box::into_inner(left).let_test_go();
    Box::into_inner(right)
}

/// Letting go takes neither memory nor a recursion: each condition to the left is turned, until one without parts
/// stands there.
impl Drop for Cond {
    fn drop(mut self) {
        'turns: loop {
            match self {
                Cond::Or(left, right) | Cond::And(left, right) => self = rest(left, right),
                Cond::Not(inner) => self = Box::into_inner(inner),
                Cond::Compare(_, _, _) => return,
                Cond::Among(_, _) | Cond::NotAmong(_, _) => return,
                Cond::Is(_, _) => return,
                Cond::Part(_, _, _) => return,
                Cond::OfModel {
                    twin: _,
                    model: _,
                    exact: _,
                } => return,
            }
        }
    }
}

impl Cond {
    /// Lets a condition without parts go.
    fn let_test_go(self)
        requires { has_parts self ≡ false }
    {
        match self {
            Cond::Or(_first, _second) | Cond::And(_first, _second) => unreachable!(),
            Cond::Not(_inner) => unreachable!(),
            Cond::Compare(_, _, _) => {}
            Cond::Among(_, _) | Cond::NotAmong(_, _) => {}
            Cond::Is(_, _) => {}
            Cond::Part(_, _, _) => {}
            Cond::OfModel {
                twin: _,
                model: _,
                exact: _,
            } => {}
        }
    }

    /// An equal condition in memory of its own, made without a recursion.
    pub fn copy(&self, alloc: Global) -> Result<Cond, OutOfMemory>
        ensures { IfOk result (λ copy. condition copy ≡ condition self.now) }
    {
        let mut parts = parts_of(alloc, self)?;
        let mut copies = Vec::new(alloc);
        'parts: while let Some(part) = parts.pop() {
            let copy = copy_part(alloc, part, &mut copies)?;
            copies.push(copy)?;
        }
        match copies.pop() {
            Some(copy) => Ok(copy),
            None => unreachable!(),
        }
    }
}
