//! The lines that name a fault of a document.

ghost use Rattle.std.specs.Prelude.{◌≡◌, ◌++◌, ℕ, IfOk, Some, slice_get, string_bytes};
ghost use Rattle.json_tree.specs.Values.{Raw};
ghost use Rattle.json_tree.specs.Grammar.{IsText};
ghost use Rattle.json_tree.specs.Places.{StandsAt};
ghost use Rattle.json_read.specs.Faults.{IsFault};
ghost use Rattle.json_tree.specs.View.{view};
ghost use Rattle.local_rules.specs.Breaches.{IsFirstBreach};
ghost use Rattle.dtdl_terms.specs.Spots.{spot_text};
ghost use Rattle.extend_resolve.specs.Breaches.{set_rule_code};
ghost use Rattle.documents.specs.Lines.{IsBreachLine, IsFaultLine, IsPlaceLine, pointer_line};

use dt_base::{List, OutOfMemory, Text};
use dtdl_terms::{Spot, Uploaded, spot_pointer};
use extend_resolve::SetRule;
use json_read::{JsonFault, pointer_in};
use json_tree::{Place, Tree, pointer_of, print};
use model_read::LocalRule;
use std::alloc::Global;

/// The bytes of a line, which is moved.
fn bytes_of(line: String) -> List<u8>
    ensures { result ≡ string_bytes line }
{
    List::from_vec(line.into_bytes())
}

/// `refused`, the number of a document, a pointer as a JSON text, and a code.
fn refused_line(
    alloc: Global,
    number: usize,
    pointer: Text,
    code: &str,
) -> Result<List<u8>, OutOfMemory>
    ensures { IfOk result (λ line. line ≡ pointer_line number pointer code.now) }
{
    let quoted = print(alloc, &Tree::Text(pointer))?;
    let quoted = quoted.as_str();
    Ok(bytes_of(format!(in alloc; "refused {number} {quoted} {code}\n")?))
}

/// The same, with the pointer to a place of a document's bytes.
fn line_at(
    alloc: Global,
    number: usize,
    bytes: &[u8],
    place: &Place,
    code: &str,
) -> Result<List<u8>, OutOfMemory>
    requires { (raw : Raw) × IsText bytes.now raw × ((part : Raw) × StandsAt raw place.now.steps part) }
    ensures { IfOk result (IsPlaceLine number bytes.now place.now code.now) }
{
    let pointer = pointer_in(alloc, bytes, place)?;
    refused_line(alloc, number, pointer.text, code)
}

/// The line that names the fault of a document as a JSON text.
pub fn fault_line(
    alloc: Global,
    number: usize,
    bytes: &[u8],
    fault: &JsonFault,
) -> Result<List<u8>, OutOfMemory>
    requires { IsFault bytes.now fault.now }
    ensures { IfOk result (IsFaultLine number bytes.now fault.now) }
{
    match fault {
        JsonFault::Byte { at } => Ok(bytes_of(format!(in alloc;
            "refused {number} byte {at} Byte\n"
        )?)),
        JsonFault::Ends { at } => Ok(bytes_of(format!(in alloc;
            "refused {number} byte {at} Ends\n"
        )?)),
        JsonFault::Duplicate { place } => line_at(alloc, number, bytes, place, "Duplicate"),
        JsonFault::Range { place } => line_at(alloc, number, bytes, place, "Range"),
        JsonFault::OutOfMemory => Err(OutOfMemory),
    }
}

/// The line that names the first local rule that a document breaks.
pub fn breach_line(
    alloc: Global,
    number: usize,
    tree: &Tree,
    place: &Place,
    rule: LocalRule,
) -> Result<List<u8>, OutOfMemory>
    requires { IsFirstBreach (view tree.now) place.now.steps rule }
    ensures { IfOk result (IsBreachLine number (view tree.now)) }
{
    let pointer = pointer_of(alloc, tree, place)?;
    refused_line(alloc, number, pointer.text, rule.text())
}

/// The line that names a rule on sets which an interface breaks at a place of it.
pub fn set_line(
    alloc: Global,
    uploaded: &Uploaded,
    spot: &Spot,
    rule: SetRule,
) -> Result<List<u8>, OutOfMemory>
    ensures { IfOk result (λ line. line ≡ pointer_line uploaded.now.document (uploaded.now.base ++ spot_text uploaded.now.parents_as_text spot.now) (set_rule_code rule)) }
{
    let pointer = spot_pointer(alloc, uploaded, spot)?;
    refused_line(alloc, uploaded.document as usize, pointer, rule.text())
}
