//! The methods of requests.

ghost use Rattle.std.specs.Prelude.{◌≡◌, Contains, MatchOption, IsTrue, ◌↔◌};
ghost use Rattle.graph_routes.specs.Methods.{allow_text, method_text, methods};
ghost use Rattle.graph_routes.specs.declared.method.Method.{Method};

use crate::route::Route;

/// A method that some resource has (RFC 9110, section 9.3, and RFC 5789).
#[derive(Clone, Copy, Debug, PartialEq, Eq)]
pub enum Method {
    Delete,
    Get,
    Patch,
    Post,
    Put,
}

/// The method of this name; names of methods are compared as they stand (RFC 9110, section 9.1).
pub fn method_named(name: &str) -> Option<Method>
    ensures { MatchOption result ((m : Method) → name.now ≡ method_text m → ⊥) (λ m. name.now ≡ method_text m) }
{
    match name {
        "DELETE" => Some(Method::Delete),
        "GET" => Some(Method::Get),
        "PATCH" => Some(Method::Patch),
        "POST" => Some(Method::Post),
        "PUT" => Some(Method::Put),
        _ => None,
    }
}

/// The methods of a path, in the order of their names.
fn methods(route: Route) -> &'static [Method]
    ensures { result.now ≡ methods route }
{
    match route {
        Route::Models => &[Method::Get, Method::Post],
        Route::Model => &[Method::Delete, Method::Get, Method::Patch],
        Route::Canon | Route::Relationships | Route::IncomingRelationships => &[Method::Get],
        Route::Twin | Route::Relationship => {
            &[Method::Delete, Method::Get, Method::Patch, Method::Put]
        }
        Route::Component => &[Method::Get, Method::Patch],
        Route::Query => &[Method::Post],
    }
}

/// Whether a path has a method.
pub fn has_method(route: Route, method: Method) -> bool
    ensures { IsTrue result ↔ Contains (methods route) method }
{
    methods(route).contains(&method)
}

/// The methods of a path, as the field `Allow` lists them (RFC 9110, section 10.2.1).
pub fn allow_text(route: Route) -> &'static str
    ensures { result.now ≡ allow_text route }
{
    match route {
        Route::Models => "GET, POST",
        Route::Model => "DELETE, GET, PATCH",
        Route::Canon | Route::Relationships | Route::IncomingRelationships => "GET",
        Route::Twin | Route::Relationship => "DELETE, GET, PATCH, PUT",
        Route::Component => "GET, PATCH",
        Route::Query => "POST",
    }
}
