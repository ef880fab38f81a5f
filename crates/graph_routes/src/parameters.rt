//! The parameters behind the `?` of a request's target.

ghost use Rattle.std.specs.Prelude.{◌≡◌, ℕ, List, Option, IfOk, bytes_eq};
ghost use Rattle.graph_routes.specs.Parameters.{BeginsPastId, BeginsPastPair, form_text, name_asked, parameter, token_given};
ghost use Rattle.graph_routes.specs.Machinery.Pages.{ReadsPage, ReadsPairPage};

use dt_base::{OutOfMemory, Text};
use form_urlencoded::{decode, raw_pairs};
use page_tokens::ids_of_token;
use std::alloc::Global;

/// Where a page begins.
#[derive(Drop)]
pub enum Page {
    /// Past this id, or at the first entry.
    Past(Option<Text>),
    /// The token is none.
    BadToken,
}

/// Where a page of pairs of ids begins.
#[derive(Drop)]
pub enum PairPage {
    /// Past these ids, or at the first entry.
    Past(Option<(Text, Text)>),
    /// The token is none.
    BadToken,
}

/// The text that a name or a value of a form stands for.
fn form_text(alloc: Global, bytes: &[u8]) -> Result<Text, OutOfMemory>
    ensures { IfOk result (λ text. text ≡ form_text bytes.now) }
{
    let text = decode(alloc, bytes)?;
    Text::from_str(alloc, text.as_str())
}

/// Whether a name of a form stands for this one.
fn is_named(alloc: Global, bytes: &[u8], name: &str) -> Result<bool, OutOfMemory>
    ensures { IfOk result (λ same. same ≡ bytes_eq (form_text bytes.now) name.now) }
{
    let text = decode(alloc, bytes)?;
    Ok(text.as_str() == name)
}

/// The value of the first parameter of this name.
fn parameter(alloc: Global, query: &str, name: &str) -> Result<Option<Text>, OutOfMemory>
    ensures { IfOk result (λ value. value ≡ parameter name.now query.now) }
{
    'pairs: for (key, value) in raw_pairs(query.as_bytes()) {
        if is_named(alloc, key, name)? {
            let value = form_text(alloc, value)?;
            return Ok(Some(value));
        }
    }
    Ok(None)
}

/// The name of the relationships that are asked for, where one is given. Only want of memory makes it fail.
pub fn name_asked(alloc: Global, query: &str) -> Result<Option<Text>, OutOfMemory>
    ensures { IfOk result (λ name. name ≡ name_asked query.now) }
{
    parameter(alloc, query, "relationshipName")
}

/// Where a page of relationships out of a twin begins. Only want of memory makes it fail.
pub fn begins_past(alloc: Global, query: &str) -> Result<Page, OutOfMemory>
    ensures { IfOk result (ReadsPage (token_given query.now)) }
{
    let Some(token) = parameter(alloc, query, "continuationToken")? else {
        return Ok(Page::Past(None));
    };
    let Some(mut ids) = ids_of_token(alloc, token.as_str(), 1)? else {
        return Ok(Page::BadToken);
    };
    match ids.pop() {
        Some(id) => Ok(Page::Past(Some(id))),
        None => unreachable!(),
    }
}

/// Where a page of relationships into a twin begins. Only want of memory makes it fail.
pub fn begins_past_pair(alloc: Global, query: &str) -> Result<PairPage, OutOfMemory>
    ensures { IfOk result (ReadsPairPage (token_given query.now)) }
{
    let Some(token) = parameter(alloc, query, "continuationToken")? else {
        return Ok(PairPage::Past(None));
    };
    let Some(mut ids) = ids_of_token(alloc, token.as_str(), 2)? else {
        return Ok(PairPage::BadToken);
    };
    let Some(id) = ids.pop() else {
        unreachable!();
    };
    match ids.pop() {
        Some(source) => Ok(PairPage::Past(Some((source, id)))),
        None => unreachable!(),
    }
}
