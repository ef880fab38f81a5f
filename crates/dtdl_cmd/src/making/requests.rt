//! The requests of which a graph is made.

ghost use Rattle.std.specs.Prelude.{◌≡◌, ◌≤◌, string_bytes, codes, IfOk};
ghost use Rattle.dtdl_cmd.specs.making.Requests.{link_path, models_text, numeral, post_models, put, put_contains, put_has, put_room, put_sensor, reading, request};

use dt_base::{List, OutOfMemory, Text};
use http_ends::Request;
use std::alloc::Global;

/// The models of spaces, of rooms, which are spaces, and of sensors.
const MODELS: &str =
    r#"[{"@context":"dtmi:dtdl:context;2","@id":"dtmi:demo:Space;1","@type":"Interface","displayName":"Space","contents":[{"@type":["Property","Area"],"name":"area","schema":"double","unit":"squareMetre"},{"@type":"Relationship","name":"contains","target":"dtmi:demo:Space;1"}]},{"@context":"dtmi:dtdl:context;2","@id":"dtmi:demo:Room;1","@type":"Interface","displayName":{"en":"Room"},"extends":"dtmi:demo:Space;1","contents":[{"@type":["Property","Temperature"],"name":"setPoint","schema":"double","unit":"degreeCelsius","writable":true},{"@type":"Relationship","name":"hasSensor","target":"dtmi:demo:Sensor;1"},{"@type":"Relationship","name":"main","target":"dtmi:demo:Sensor;1","maxMultiplicity":1}]},{"@context":"dtmi:dtdl:context;2","@id":"dtmi:demo:Sensor;1","@type":"Interface","displayName":"Sensor","contents":[{"@type":["Property","Temperature"],"name":"reading","schema":"double","unit":"degreeCelsius"},{"@type":["Telemetry","Temperature"],"name":"live","schema":"double","unit":"degreeCelsius"}]}]"#;

/// A request with a body, which asks for no end of the connection.
fn request(alloc: Global, method: &str, path: &str, body: &str) -> Result<Request, OutOfMemory>
    ensures { IfOk result (λ made. made ≡ request method.now path.now body.now) }
{
    let body = String::from_str(alloc, body)?;
    Ok(Request {
        method: Text::from_str(alloc, method)?,
        path: Text::from_str(alloc, path)?,
        query: Text::from_str(alloc, "")?,
        body: List::from_vec(body.into_bytes()),
        close: false,
    })
}

/// The request that uploads the models.
#[tactic(auto, unfolding(crate::specs::making::Requests::models_text))]
pub fn post_models(alloc: Global) -> Result<Request, OutOfMemory>
    ensures { IfOk result (λ made. made ≡ post_models) }
{
    request(alloc, "POST", "/models", MODELS)
}

/// A number below 100,000 in five digits.
fn numeral(alloc: Global, k: u32) -> Result<String, OutOfMemory>
    ensures { IfOk result (λ text. string_bytes text ≡ numeral k) }
{
    let (first, second, third) = (k / 10_000, k / 1_000 % 10, k / 100 % 10);
    let (fourth, fifth) = (k / 10 % 10, k % 10);
    Ok(format!(in alloc; "{first}{second}{third}{fourth}{fifth}")?)
}

/// The request that puts the twin of a room.
pub fn put_room(alloc: Global, k: u32) -> Result<Request, OutOfMemory>
    ensures { IfOk result (λ made. made ≡ put_room k) }
{
    let numeral = numeral(alloc, k)?;
    let path = format!(in alloc; "/digitaltwins/room-{numeral}")?;
    request(
        alloc,
        "PUT",
        path.as_str(),
        "{\"$metadata\":{\"$model\":\"dtmi:demo:Room;1\"}}",
    )
}

/// The request that puts the twin of a room's sensor, which reads tenths.
pub fn put_sensor(alloc: Global, k: u32) -> Result<Request, OutOfMemory>
    requires few { k ≤ 20000 }
    ensures { IfOk result (λ made. made ≡ put_sensor k) }
{
    let numeral = numeral(alloc, k)?;
    let path = format!(in alloc; "/digitaltwins/sensor-{numeral}")?;
    let tenths = 37 * k % 1_000;
    let (whole, tenth) = (tenths / 10, tenths % 10);
    let body = format!(in alloc;
        "{{\"$metadata\":{{\"$model\":\"dtmi:demo:Sensor;1\"}},\"reading\":{whole}.{tenth}}}"
    )?;
    request(alloc, "PUT", path.as_str(), body.as_str())
}

/// The request that puts the relationship from a room to its sensor.
pub fn put_has(alloc: Global, k: u32) -> Result<Request, OutOfMemory>
    ensures { IfOk result (λ made. made ≡ put_has k) }
{
    let numeral = numeral(alloc, k)?;
    let path = format!(in alloc; "/digitaltwins/room-{numeral}/relationships/h-{numeral}")?;
    let body = format!(in alloc;
        "{{\"$targetId\":\"sensor-{numeral}\",\"$relationshipName\":\"hasSensor\"}}"
    )?;
    request(alloc, "PUT", path.as_str(), body.as_str())
}

/// The request that puts the relationship from a room to the next one.
pub fn put_contains(alloc: Global, k: u32) -> Result<Request, OutOfMemory>
    requires few { k ≤ 20000 }
    ensures { IfOk result (λ made. made ≡ put_contains k) }
{
    let this = numeral(alloc, k)?;
    let path = format!(in alloc; "/digitaltwins/room-{this}/relationships/c-{this}")?;
    let next = numeral(alloc, k + 1)?;
    let body = format!(in alloc;
        "{{\"$targetId\":\"room-{next}\",\"$relationshipName\":\"contains\"}}"
    )?;
    request(alloc, "PUT", path.as_str(), body.as_str())
}
