//! What the definitions of prepared requests say, whatever is asked.

ghost use Rattle.std.specs.Prelude.{ℕ, List};
ghost use Rattle.dt_base.specs.Existence.{IsThere};
ghost use Rattle.json_tree.specs.Values.{Json};
ghost use Rattle.json_tree.specs.Grammar.{Spells};
ghost use Rattle.dtdl_terms.specs.declared.uploaded.Uploaded.{Uploaded};
ghost use Rattle.local_rules.specs.Breaches.{BreaksNoLocalRule};
ghost use Rattle.model_read.specs.Uploads.{AreUploaded};
ghost use Rattle.http_ends.specs.declared.request.Request.{Request};
ghost use Rattle.graph_asks.specs.declared.ask.Ask.{Ask};
ghost use Rattle.graph_asks.specs.declared.refusal.Refusal.{Refusal};
ghost use Rattle.graph_asks.specs.declared.refusal.Refusal.TheVariants as refusals;
ghost use Rattle.graph_routes.specs.Prepared.{ArePreparedAlike, IsPrepared, LacksMethod};
ghost use Rattle.graph_routes.specs.Responses.{ListsMethods};
ghost use Rattle.graph_routes.specs.declared.prepared.Prepared.{Prepared};
ghost use Rattle.graph_routes.specs.declared.prepared.Prepared.TheVariants as made;
ghost use Rattle.graph_steps.specs.Soundness.{AreSoundUploads, IsSoundAsk};

use json_decimal::one_number;
use json_read::value_or_fault;
use local_faults::breach_or_none;
use model_read::declaration_is_there;
use query_bodies::some_outcome;
use twin_patch::{one_answer, some_answer};

/// The interfaces of a document without breach that was read from a text may be asked for together, in their order.
pub fn documents_are_sound()
    ensures { (bytes : List ℕ) (whole : Json) (nth : ℕ) (us : List Uploaded)
        → Spells bytes whole → BreaksNoLocalRule whole → AreUploaded whole nth us → AreSoundUploads us }
{}

/// A request makes at most one ask, or its bytes decide at most one refusal, and never both. Two asks are one but for where
/// their trees, patches and queries lie in memory.
pub fn one_prepared()
    ensures { (request : Request) (p q : Prepared) → IsPrepared request p → IsPrepared request q → ArePreparedAlike p q }
{
    one_number();
    one_answer();
}

/// Each request, whatever it is, makes an ask, or its bytes decide a refusal: that there is neither is refuted (`IsThere`).
pub fn some_prepared()
    ensures { (request : Request) → IsThere ((prepared : Prepared) × IsPrepared request prepared) }
{
    value_or_fault();
    breach_or_none();
    declaration_is_there();
    some_outcome();
    some_answer();
}

/// What is made of a request can be used: an ask is sound, and a refusal can be written as a reply. A method is refused only where
/// the path does not have it, so each method that a path lists is asked something.
pub fn prepared_is_right()
    ensures sound { (request : Request) (ask : Ask) → IsPrepared request (made.Ask ask) → IsSoundAsk ask }
    ensures lacks { (request : Request) (allow : List ℕ) → IsPrepared request (made.Own (refusals.BadMethod allow)) → LacksMethod request }
    ensures written { (request : Request) (refusal : Refusal) → IsPrepared request (made.Own refusal) → ListsMethods refusal }
{}
