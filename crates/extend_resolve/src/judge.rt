//! What each new interface of a set breaks.

ghost use Rattle.std.specs.Prelude.{◌≡◌, ◌<◌, ◌+◌, ◌↔◌, ℕ, map, length, slice_get, get_or, nat_eq, min, false, true, None, IfOk, OnOk};
ghost use Rattle.std.specs.List.{AllByRecursion, IsDistinct, list_any};
ghost use Rattle.dt_base.specs.names.Grammar.{Identifier};
ghost use Rattle.dtdl_terms.specs.Sets.{interface_at};
ghost use Rattle.dtdl_terms.specs.declared.spot.Spot.TheVariants as spots;
ghost use Rattle.extend_resolve.specs.SetRules.{NamesParent, NamesComponent};
ghost use Rattle.extend_resolve.specs.Machinery.Links.{IsIn, links_at, Arrives, AreClear};
ghost use Rattle.extend_resolve.specs.Machinery.Numbers.{kept_at};
ghost use Rattle.extend_resolve.specs.Machinery.Owners.{AreFresh, any_reached, add_reached};
ghost use Rattle.extend_resolve.specs.Machinery.Firsts.{IsLeastFound, AtSpot};
ghost use Rattle.extend_resolve.specs.Machinery.Judges.{nodes_in, IsJudge, IsJudging, IsReady, Broken, AreBehind, counted_rest, is_rest_of, is_other_than, holds_number, is_long_at, IsReached, KnowsOwners, AreComposed, ReachesComponent, OfParents, OfContents};

use crate::closure::closure;
use crate::depths::depths;
use crate::first::{Found, earlier, found_where};
use crate::gathering::component_of;
use crate::names::Names;
use crate::owners::{Owner, add, any_other};
use crate::rule::SetRule;
use crate::world::World;
use dt_base::OutOfMemory;
use dt_base::names::Dtmi;
use dtdl_terms::{Content, ModelSet, Spot, Uploaded};
use std::alloc::Global;

/// The most steps of a chain of extension.
const MOST_STEPS: u64 = 10;

/// The most contents that an interface and its ancestors declare together.
const MOST_CONTENTS: usize = 3000;

/// New interfaces beside a set, with what was found out about them.
#[derive(Drop)]
pub struct Judge<'a> {
    alloc: Global,
    set: &'a ModelSet,
    new: &'a [Uploaded],
    world: World<'a>,
    names: Names,
    depths: Vec<Option<u64>>,
}

/// What changes while the new interfaces are judged one after another.
#[derive(Drop)]
pub struct Scratch {
    /// The marks of a search, clear between searches.
    marks: Vec<bool>,
    /// Who declares the names that were reached, in the round of the judged interface.
    owners: Vec<Owner>,
    /// Whether each interface or an ancestor of it declares a component, where that is known.
    composed: Vec<Option<bool>>,
}

impl<'a> Judge<'a> {
    /// New interfaces beside a set, which has none of their identifiers. Fails only for want of memory.
    pub fn new(
        alloc: Global,
        set: &'a ModelSet,
        new: &'a [Uploaded],
    ) -> Result<Judge<'a>, OutOfMemory>
        requires apart { AllByRecursion (λ u. interface_at u.interface.id set.now ≡ None) new.now }
        ensures judge { IfOk result (λ j. IsJudge j) }
        ensures set { IfOk result (λ j. j.set.now ≡ set.now) }
        ensures new { IfOk result (λ j. j.new.now ≡ new.now) }
    {
        let world = World::new(alloc, set, new)?;
        let names = Names::new(alloc, world.nodes.as_slice())?;
        let depths = depths(alloc, world.links.as_slice())?;
        Ok(Judge {
            alloc,
            set,
            new,
            world,
            names,
            depths,
        })
    }

    /// What the first judgement begins with.
    pub fn scratch(&self) -> Result<Scratch, OutOfMemory>
        requires { IsJudge self.now }
        ensures { IfOk result (λ s. IsReady self.now s 0) }
    {
        let alloc = self.alloc;
        let nobody = Owner {
            round: self.new.len(),
            number: 0,
            several: false,
        };
        let marks = vec![in alloc; false; self.world.links.len()]?;
        let owners = vec![in alloc; nobody; self.names.bound]?;
        let composed = vec![in alloc; None; self.world.links.len()]?;
        Ok(Scratch {
            marks,
            owners,
            composed,
        })
    }

    /// The first breach of the new interface at a position.
    pub fn first_of(
        &self,
        scratch: &mut Scratch,
        index: usize,
        uploaded: &Uploaded,
    ) -> Result<Option<Found>, OutOfMemory>
        requires judging { IsJudging self.now index uploaded.now }
        requires ready { IsReady self.now scratch.old index }
        ensures ready { OnOk result (IsReady self.now scratch.new (index + 1)) }
        ensures least { IfOk result (λ o. IsLeastFound uploaded.now (Broken self.now index uploaded.now) o) }
    {
        let ancestors = self.reach(scratch.marks.as_mut_slice(), index)?;
        let number = self.world.number(&uploaded.interface.id);
        let whole = self.judge_whole(index, uploaded, number, ancestors.as_slice());
        let id = self.judge_id(index, uploaded, number);
        let chain = self.judge_chain(index, uploaded, number, ancestors.as_slice());
        let parents = self.judge_parents(scratch, index, uploaded, number)?;
        let contents = self.judge_contents(scratch, index, uploaded)?;
        let below = earlier(uploaded, parents, contents);
        let own = earlier(uploaded, id, chain);
        let inner = earlier(uploaded, own, below);
        Ok(earlier(uploaded, whole, inner))
    }

    /// The numbers of an interface and its ancestors, each once.
    fn reach(&self, marks: &mut [bool], number: usize) -> Result<Vec<usize>, OutOfMemory>
        requires judge { IsJudge self.now }
        requires within { number < length self.now.world.nodes.items }
        requires bound { length marks.old ≡ length self.now.world.links.items }
        requires clear { AreClear marks.old }
        ensures behind { IfOk result (λ found. AreBehind self.now.world.links.items number found.items) }
        ensures clear { OnOk result (AreClear marks.new) }
    {
        closure(self.alloc, self.world.links.as_slice(), marks, number)
    }

    /// Judges how many contents the interface and its ancestors declare.
    fn judge_whole(
        &self,
        index: usize,
        uploaded: &Uploaded,
        own: Option<usize>,
        ancestors: &[usize],
    ) -> Option<Found>
        requires judging { IsJudging self.now index uploaded.now }
        requires own { own ≡ kept_at uploaded.now.interface.id self.now.world.numbers.entries }
        requires behind { AreBehind self.now.world.links.items index ancestors.now }
        ensures { IsLeastFound uploaded.now (AtSpot (Broken self.now index uploaded.now) spots.Whole) result }
    {
        let others = self.count_contents(ancestors, index, own);
        let total = others.saturating_add(uploaded.interface.contents.len());
        found_where(total > MOST_CONTENTS, SetRule::TooManyResolved, Spot::Whole)
    }

    /// The contents that these declare together, but for the judged interface and what stands for its identifier.
    fn count_contents(&self, numbers: &[usize], index: usize, own: Option<usize>) -> usize
        requires { AllByRecursion (λ y. y < length self.now.world.nodes.items) numbers.now }
        ensures { result ≡ min (counted_rest (nodes_in self.now) index own numbers.now) usize.MAX }
    {
        let mut total = 0usize;
        'numbers: for number in numbers {
            if is_rest(index, own, *number) {
                total = total.saturating_add(self.world.nodes[*number].contents.len());
            }
        }
        total
    }

    /// Judges whether an earlier interface has the identifier.
    fn judge_id(&self, index: usize, uploaded: &Uploaded, own: Option<usize>) -> Option<Found>
        requires judging { IsJudging self.now index uploaded.now }
        requires own { own ≡ kept_at uploaded.now.interface.id self.now.world.numbers.entries }
        ensures { IsLeastFound uploaded.now (AtSpot (Broken self.now index uploaded.now) spots.Id) result }
    {
        found_where(is_other(index, own), SetRule::RepeatedId, Spot::Id)
    }

    /// Judges how long the chains are that begin with the interface. Where a cycle is reached they are not judged.
    fn judge_chain(
        &self,
        index: usize,
        uploaded: &Uploaded,
        own: Option<usize>,
        ancestors: &[usize],
    ) -> Option<Found>
        requires judging { IsJudging self.now index uploaded.now }
        requires own { own ≡ kept_at uploaded.now.interface.id self.now.world.numbers.entries }
        requires behind { AreBehind self.now.world.links.items index ancestors.now }
        ensures { IsLeastFound uploaded.now (AtSpot (Broken self.now index uploaded.now) spots.Parents) result }
    {
        let long = is_long(self.depths[index], index, own, ancestors);
        found_where(long, SetRule::LongChain, Spot::Parents)
    }

    /// Judges the parents one by one.
    fn judge_parents(
        &self,
        scratch: &mut Scratch,
        index: usize,
        uploaded: &Uploaded,
        own: Option<usize>,
    ) -> Result<Option<Found>, OutOfMemory>
        requires judging { IsJudging self.now index uploaded.now }
        requires own { own ≡ kept_at uploaded.now.interface.id self.now.world.numbers.entries }
        requires ready { IsReady self.now scratch.old index }
        ensures ready { OnOk result (IsReady self.now scratch.new (index + 1)) }
        ensures least { IfOk result (λ o. IsLeastFound uploaded.now (OfParents (Broken self.now index uploaded.now) (length uploaded.now.interface.parents)) o) }
    {
        let mut first = None;
        add(
            scratch.owners.as_mut_slice(),
            index,
            self.names.declared[index].as_slice(),
            own.unwrap_or(index),
        );
        'parents: for at in 0..uploaded.interface.parents.len() {
            let found = self.judge_parent(
                scratch.marks.as_mut_slice(),
                scratch.owners.as_mut_slice(),
                index,
                uploaded,
                own,
                at,
            )?;
            first = earlier(uploaded, first, found);
        }
        Ok(first)
    }

    /// Judges the parent at a position.
    fn judge_parent(
        &self,
        marks: &mut [bool],
        owners: &mut [Owner],
        index: usize,
        uploaded: &Uploaded,
        own: Option<usize>,
        at: usize,
    ) -> Result<Option<Found>, OutOfMemory>
        requires judging { IsJudging self.now index uploaded.now }
        requires own { own ≡ kept_at uploaded.now.interface.id self.now.world.numbers.entries }
        requires bound { length marks.old ≡ length self.now.world.links.items }
        requires clear { AreClear marks.old }
        requires names { length owners.old ≡ self.now.names.bound }
        requires at { at < length uploaded.now.interface.parents }
        requires owned { KnowsOwners self.now owners.old index uploaded.now at }
        requires fresh { AreFresh owners.old (index + 1) (length self.now.new.now) }
        ensures clear { OnOk result (AreClear marks.new) }
        ensures owned { OnOk result (at + 1 < length uploaded.now.interface.parents → KnowsOwners self.now owners.new index uploaded.now (at + 1)) }
        ensures fresh { OnOk result (AreFresh owners.new (index + 1) (length self.now.new.now)) }
        ensures least { IfOk result (λ o. IsLeastFound uploaded.now (AtSpot (Broken self.now index uploaded.now) (spots.Parent at)) o) }
    {
        let count = uploaded.interface.parents.len();
        let Some(parent) = self.parent_number(index, uploaded, at) else {
            return Ok(found_where(true, SetRule::AbsentReference, Spot::Parent(at as u64)));
        };
        let reached = self.reach(marks, parent)?;
        let found = self.judge_reached(owners, index, uploaded, own, at, reached.as_slice());
        if at + 1 < count {
            self.add_owners(owners, index, reached.as_slice());
        }
        Ok(found)
    }

    /// The number of the parent at a position. Where no parent is absent, it is the link at the position.
    fn parent_number(&self, index: usize, uploaded: &Uploaded, at: usize) -> Option<usize>
        requires judging { IsJudging self.now index uploaded.now }
        requires at { at < length uploaded.now.interface.parents }
        ensures { (p : Identifier) → NamesParent uploaded.now.interface at p → result ≡ kept_at p self.now.world.numbers.entries }
    {
        let parents = uploaded.interface.parents.as_slice();
        let links = self.world.links[index].as_slice();
        if links.len() == parents.len() {
            Some(links[at])
        } else {
            self.world.number(&parents[at])
        }
    }

    /// Judges what the parent at a position leads to.
    fn judge_reached(
        &self,
        owners: &[Owner],
        index: usize,
        uploaded: &Uploaded,
        own: Option<usize>,
        at: usize,
        reached: &[usize],
    ) -> Option<Found>
        requires judging { IsJudging self.now index uploaded.now }
        requires own { own ≡ kept_at uploaded.now.interface.id self.now.world.numbers.entries }
        requires names { length owners.now ≡ self.now.names.bound }
        requires owned { KnowsOwners self.now owners.now index uploaded.now at }
        requires reached { IsReached self.now.world.numbers.entries self.now.world.links.items uploaded.now.interface at reached.now }
        ensures { IsLeastFound uploaded.now (AtSpot (Broken self.now index uploaded.now) (spots.Parent at)) result }
    {
        let spot = Spot::Parent(at as u64);
        if is_among(reached, own) {
            return Some(Found {
                spot,
                rule: SetRule::Cycle,
            });
        }
        if at == 0 && uploaded.interface.contents.is_empty() {
            return None;
        }
        let clashes = self.clashes(owners, index, reached);
        found_where(clashes, SetRule::NameClash, spot)
    }

    /// Whether a name that one of these declares has another owner.
    fn clashes(&self, owners: &[Owner], index: usize, reached: &[usize]) -> bool
        requires reached { AllByRecursion (λ y. y < length self.now.names.declared.items) reached.now }
        requires names { (y x : ℕ) → IsIn x (links_at self.now.names.declared.items y) → x < length owners.now }
        ensures { result ≡ any_reached self.now.names.declared.items index owners.now reached.now }
    {
        'reached: for number in reached {
            if any_other(
                owners,
                index,
                self.names.declared[*number].as_slice(),
                *number,
            ) {
                return true;
            }
        }
        false
    }

    /// Makes these the owners of the names that they declare.
    fn add_owners(&self, owners: &mut [Owner], index: usize, reached: &[usize])
        requires reached { AllByRecursion (λ y. y < length self.now.names.declared.items) reached.now }
        requires names { (y x : ℕ) → IsIn x (links_at self.now.names.declared.items y) → x < length owners.old }
        ensures { owners.new ≡ add_reached self.now.names.declared.items index owners.old reached.now }
    {
        'reached: for number in reached {
            add(
                owners,
                index,
                self.names.declared[*number].as_slice(),
                *number,
            );
        }
    }

    /// Judges the contents one by one. Only components break rules, so where there is none they are not gone over.
    fn judge_contents(
        &self,
        scratch: &mut Scratch,
        index: usize,
        uploaded: &Uploaded,
    ) -> Result<Option<Found>, OutOfMemory>
        requires judging { IsJudging self.now index uploaded.now }
        requires ready { IsReady self.now scratch.old (index + 1) }
        ensures ready { OnOk result (IsReady self.now scratch.new (index + 1)) }
        ensures least { IfOk result (λ o. IsLeastFound uploaded.now (OfContents (Broken self.now index uploaded.now) (length uploaded.now.interface.contents)) o) }
    {
        if !self.world.composed[index] {
            return Ok(None);
        }
        let mut first = None;
        let contents = uploaded.interface.contents.as_slice();
        'contents: for at in 0..contents.len() {
            if let Some(of) = component_of(&contents[at]) {
                let found = self.judge_component(scratch, index, uploaded, at, of)?;
                first = earlier(uploaded, first, found);
            }
        }
        Ok(first)
    }

    /// Judges the component at a position.
    fn judge_component(
        &self,
        scratch: &mut Scratch,
        index: usize,
        uploaded: &Uploaded,
        at: usize,
        of: &Dtmi,
    ) -> Result<Option<Found>, OutOfMemory>
        requires judging { IsJudging self.now index uploaded.now }
        requires ready { IsReady self.now scratch.old (index + 1) }
        requires component { NamesComponent uploaded.now.interface at of.now }
        ensures ready { OnOk result (IsReady self.now scratch.new (index + 1)) }
        ensures least { IfOk result (λ o. IsLeastFound uploaded.now (AtSpot (Broken self.now index uploaded.now) (spots.ContentSchema at)) o) }
    {
        let spot = Spot::ContentSchema(at as u64);
        let Some(part) = self.world.number(of) else {
            return Ok(found_where(true, SetRule::AbsentReference, spot));
        };
        let composed = self.is_composed(
            scratch.marks.as_mut_slice(),
            scratch.composed.as_mut_slice(),
            part,
        )?;
        Ok(found_where(composed, SetRule::ComponentInComponent, spot))
    }

    /// Whether an interface or an ancestor of it declares a component, which is found out once.
    fn is_composed(
        &self,
        marks: &mut [bool],
        known: &mut [Option<bool>],
        number: usize,
    ) -> Result<bool, OutOfMemory>
        requires judge { IsJudge self.now }
        requires within { number < length self.now.world.nodes.items }
        requires bound { length marks.old ≡ length self.now.world.links.items }
        requires clear { AreClear marks.old }
        requires size { length known.old ≡ length self.now.world.links.items }
        requires known { AreComposed self.now.world.links.items self.now.world.composed.items known.old }
        ensures clear { OnOk result (AreClear marks.new) }
        ensures known { OnOk result (AreComposed self.now.world.links.items self.now.world.composed.items known.new) }
        ensures composed { IfOk result (λ b. (b ≡ true) ↔ ReachesComponent self.now.world.links.items self.now.world.composed.items number) }
    {
        if let Some(known) = known[number] {
            return Ok(known);
        }
        let ancestors = self.reach(marks, number)?;
        let composed = self.any_composed(ancestors.as_slice());
        known[number] = Some(composed);
        Ok(composed)
    }

    /// Whether one of these declares a component.
    fn any_composed(&self, numbers: &[usize]) -> bool
        requires { AllByRecursion (λ y. y < length self.now.world.composed.items) numbers.now }
        ensures { result ≡ list_any (λ y. get_or self.now.world.composed.items y false) numbers.now }
    {
        'numbers: for number in numbers {
            if self.world.composed[*number] {
                return true;
            }
        }
        false
    }
}

/// Whether a number is that of neither the judged interface nor what stands for its identifier.
fn is_rest(index: usize, own: Option<usize>, number: usize) -> bool
    ensures { result ≡ is_rest_of index own number }
{
    match own {
        Some(own) => number != index && number != own,
        None => number != index,
    }
}

/// Whether another interface than the judged one stands for its identifier.
fn is_other(index: usize, own: Option<usize>) -> bool
    ensures { result ≡ is_other_than index own }
{
    match own {
        Some(own) => own != index,
        None => true,
    }
}

/// Whether a number is there and among these.
fn is_among(numbers: &[usize], own: Option<usize>) -> bool
    ensures { result ≡ holds_number numbers.now own }
{
    match own {
        Some(own) => numbers.contains(&own),
        None => false,
    }
}

/// Whether a chain is too long, and what stands for the judged interface's identifier is not reached in its place.
fn is_long(depth: Option<u64>, index: usize, own: Option<usize>, ancestors: &[usize]) -> bool
    ensures { result ≡ is_long_at depth index own ancestors.now }
{
    match depth {
        Some(depth) => { depth > MOST_STEPS && !(is_other(index, own) && is_among(ancestors, own)) }
        None => false,
    }
}
