//! All that can be reached by links.

ghost use Rattle.std.specs.Prelude.{◌≡◌, ◌↔◌, ◌<◌, ℕ, length, nat_eq, IfOk, OnOk};
ghost use Rattle.std.specs.List.{AllByRecursion, IsDistinct};
ghost use Rattle.extend_resolve.specs.Machinery.Links.{IsIn, Arrives, AreLinksWithin, add_new, push_new, AreMarked, AreClear};

use dt_base::{List, OutOfMemory};
use std::alloc::Global;

/// The numbers that links lead to from a number, itself included, each once. The marks are clear before and after.
pub fn closure(
    alloc: Global,
    links: &[List<usize>],
    marks: &mut [bool],
    start: usize,
) -> Result<Vec<usize>, OutOfMemory>
    requires start { start < length links.now }
    requires bound { length marks.old ≡ length links.now }
    requires within { AreLinksWithin links.now }
    requires clear { AreClear marks.old }
    ensures each { IfOk result (λ found. (y : ℕ) → IsIn y found.items ↔ Arrives links.now start y) }
    ensures distinct { IfOk result (λ found. IsDistinct nat_eq found.items) }
    ensures clear { OnOk result (AreClear marks.new) }
{
    let mut found = Vec::new(alloc);
    add(start, marks, &mut found)?;
    let mut at = 0;
    'open: while at < found.len() {
        let number = found[at];
        visit(links[number].as_slice(), marks, &mut found)?;
        at += 1;
    }
    unmark(found.as_slice(), marks);
    Ok(found)
}

/// Adds the numbers that are not yet marked.
fn visit(links: &[usize], marks: &mut [bool], found: &mut Vec<usize>) -> Result<(), OutOfMemory>
    requires below { AllByRecursion (λ y. y < length marks.old) links.now }
    requires marked { AreMarked marks.old found.old.items }
    ensures marked { OnOk result (AreMarked marks.new found.new.items) }
    ensures found { OnOk result (found.new.items ≡ add_new found.old.items links.now) }
{
    'links: for link in links {
        add(*link, marks, found)?;
    }
    Ok(())
}

/// Adds a number that is not yet marked.
fn add(link: usize, marks: &mut [bool], found: &mut Vec<usize>) -> Result<(), OutOfMemory>
    requires below { link < length marks.old }
    requires marked { AreMarked marks.old found.old.items }
    ensures marked { OnOk result (AreMarked marks.new found.new.items) }
    ensures found { OnOk result (found.new.items ≡ push_new found.old.items link) }
{
    if marks[link] {
        return Ok(());
    }
    found.push(link)?;
    marks[link] = true;
    Ok(())
}

/// Takes away the marks of the numbers that were found.
fn unmark(found: &[usize], marks: &mut [bool])
    requires below { AllByRecursion (λ y. y < length marks.old) found.now }
    requires marked { AreMarked marks.old found.now }
    ensures { AreClear marks.new }
{
    'found: for number in found {
        marks[*number] = false;
    }
}
