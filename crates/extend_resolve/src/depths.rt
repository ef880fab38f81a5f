//! How many steps of extension lead on from each interface.

ghost use Rattle.std.specs.Prelude.{◌≡◌, ◌<◌, ◌∷◌, ◌++◌, [], length, slice_set, IfOk, OnOk};
ghost use Rattle.std.specs.List.{AllByRecursion};
ghost use Rattle.extend_resolve.specs.Machinery.Links.{AreLinksWithin, links_at};
ghost use Rattle.extend_resolve.specs.Machinery.Worlds.{AreDepths};
ghost use Rattle.extend_resolve.specs.Machinery.Deepening.{depth_over, AreSmall, IsDeepening, Grows, IsTried, with_child, LeadBack};

use dt_base::{List, OutOfMemory};
use std::alloc::Global;

/// The steps of the longest chain of links from each number; `None` where a cycle is reached. A number's steps are told
/// when those of all its links are, and then the numbers with a link to it are tried.
pub fn depths(alloc: Global, links: &[List<usize>]) -> Result<Vec<Option<u64>>, OutOfMemory>
    requires within { AreLinksWithin links.now }
    ensures { IfOk result (λ depths. AreDepths links.now depths.items) }
{
    let children = children_of(alloc, links)?;
    let mut depths = vec![in alloc; None; links.len()]?;
    let mut ended = Vec::new(alloc);
    'numbers: for number in 0..links.len() {
        end(number, links, depths.as_mut_slice(), &mut ended)?;
    }
    let mut at = 0;
    'ended: while at < ended.len() {
        let number = ended[at];
        end_all(
            children[number].as_slice(),
            links,
            depths.as_mut_slice(),
            &mut ended,
        )?;
        at += 1;
    }
    Ok(depths)
}

/// Tries to tell the steps of these numbers.
fn end_all(
    numbers: &[usize],
    links: &[List<usize>],
    depths: &mut [Option<u64>],
    ended: &mut Vec<usize>,
) -> Result<(), OutOfMemory>
    requires within { AreLinksWithin links.now }
    requires below { AllByRecursion (λ x. x < length links.now) numbers.now }
    requires so_far { IsDeepening links.now depths.old ended.old.items }
    ensures so_far { OnOk result (IsDeepening links.now depths.new ended.new.items) }
    ensures grows { OnOk result (Grows ended.old.items ended.new.items) }
    ensures tried { OnOk result (AllByRecursion (IsTried links.now ended.old.items ended.new.items) numbers.now) }
{
    'numbers: for number in numbers {
        end(*number, links, depths, ended)?;
    }
    Ok(())
}

/// Tells the steps of a number, where those of all its links are told.
fn end(
    number: usize,
    links: &[List<usize>],
    depths: &mut [Option<u64>],
    ended: &mut Vec<usize>,
) -> Result<(), OutOfMemory>
    requires within { AreLinksWithin links.now }
    requires below { number < length links.now }
    requires so_far { IsDeepening links.now depths.old ended.old.items }
    ensures so_far { OnOk result (IsDeepening links.now depths.new ended.new.items) }
    ensures grows { OnOk result (Grows ended.old.items ended.new.items) }
    ensures tried { OnOk result (IsTried links.now ended.old.items ended.new.items number) }
{
    if depths[number].is_some() {
        return Ok(());
    }
    let Some(depth) = depth_over(links[number].as_slice(), depths) else {
        return Ok(());
    };
    ended.push(number)?;
    depths[number] = Some(depth);
    Ok(())
}

/// One step more than the most that lead on from these, where they are all told.
fn depth_over(links: &[usize], depths: &[Option<u64>]) -> Option<u64>
    requires below { AllByRecursion (λ y. y < length depths.now) links.now }
    requires small { AreSmall depths.now }
    ensures { result ≡ depth_over depths.now 0 links.now }
{
    let mut most = 0;
    'links: for link in links {
        let Some(depth) = depths[*link] else {
            return None;
        };
        most = most.max(depth + 1);
    }
    Some(most)
}

/// The numbers from which links lead to each number.
fn children_of(alloc: Global, links: &[List<usize>]) -> Result<Vec<List<usize>>, OutOfMemory>
    requires within { AreLinksWithin links.now }
    ensures { IfOk result (λ children. LeadBack links.now children.items (length links.now)) }
{
    let mut children = empty_lists(alloc, links.len())?;
    'links: for (child, parents) in links.iter().enumerate() {
        add_child(child, parents.as_slice(), children.as_mut_slice())?;
    }
    Ok(children)
}

/// As many empty lists.
fn empty_lists(alloc: Global, bound: usize) -> Result<Vec<List<usize>>, OutOfMemory>
    ensures len { IfOk result (λ lists. length lists.items ≡ bound) }
    ensures empty { IfOk result (λ lists. AllByRecursion (λ l. l ≡ []) lists.items) }
{
    let mut lists = Vec::with_capacity(alloc, bound)?;
    'lists: for _number in 0..bound {
        lists.push(List::new(alloc))?;
    }
    Ok(lists)
}

/// Adds a number to the lists of these.
fn add_child(
    child: usize,
    parents: &[usize],
    children: &mut [List<usize>],
) -> Result<(), OutOfMemory>
    requires below { AllByRecursion (λ y. y < length children.old) parents.now }
    ensures { OnOk result (children.new ≡ with_child children.old child parents.now) }
{
    'parents: for parent in parents {
        push_at(*parent, child, children)?;
    }
    Ok(())
}

/// Adds a number to the list at a position.
fn push_at(at: usize, number: usize, lists: &mut [List<usize>]) -> Result<(), OutOfMemory>
    requires below { at < length lists.old }
    ensures { OnOk result (lists.new ≡ slice_set lists.old at (links_at lists.old at ++ number ∷ [])) }
{
    lists[at].push(number)?;
    Ok(())
}
