//! The router of the paths, and what is made of requests.

ghost use Rattle.std.specs.Prelude.{ℕ, List, IfOk, OnOk, Ok, MatchOption};
ghost use Rattle.matchit.specs.Route.{parse_route};
ghost use Rattle.matchit.specs.Router.{InsertsRead};
ghost use Rattle.graph_routes.specs.Paths.{Matches};
ghost use Rattle.graph_routes.specs.Prepared.{AsksOf, IsPrepared};
ghost use Rattle.graph_routes.specs.declared.route.Route.{Route};

use crate::asks::{asked, not_allowed};
use crate::method::{has_method, method_named};
use crate::prepared::Prepared;
use crate::route::Route;
use dt_base::OutOfMemory;
use graph_asks::Refusal;
use http_ends::Request;
use matchit::Router;
use std::alloc::Global;
use std::marker::Model;

/// The router of all paths.
#[derive(Drop)]
pub struct Routes {
    alloc: Global,
    router: Router<Route>,
}

impl Model for Routes {
    ghost use Rattle.std.specs.Prelude.{◌≡◌};
    ghost use Rattle.matchit.specs.Rows.{RowsOf};
    ghost use Rattle.matchit.specs.Router.{RouteOf};
    ghost use Rattle.graph_routes.specs.declared.route.Route.{Route};
    ghost use Rattle.graph_routes.specs.Machinery.Rows.{table};

    ghost Value = { RowsOf (RouteOf Route) };

    ghost view = { λ r. r.router };

    ghost invariant = { λ r. r.router ≡ table };
}

/// Adds a path to a router.
fn add(router: &mut Router<Route>, path: &str, route: Route) -> Result<(), OutOfMemory>
    ensures { OnOk result (InsertsRead (parse_route path.now) route router.old router.new (Ok tt)) }
{
    match router.insert(path, route) {
        Ok(()) => Ok(()),
        Err(_) => Err(OutOfMemory),
    }
}

/// What is asked of a path of the table.
fn asked_of(alloc: Global, route: Route, request: &Request) -> Result<Prepared, OutOfMemory>
    ensures { IfOk result (λ answer. (parts : List (List ℕ)) → Matches route parts request.now.path → AsksOf route parts request.now answer) }
{
    match method_named(request.method.as_str()) {
        Some(method) if has_method(route, method) => asked(alloc, route, method, request),
        _ => not_allowed(alloc, route),
    }
}

impl Routes {
    /// The router of all paths. It fails only for want of memory.
    pub fn new(alloc: Global) -> Result<Routes, OutOfMemory> {
        let mut router = Router::new(alloc);
        add(&mut router, "/models", Route::Models)?;
        add(&mut router, "/models/{id}", Route::Model)?;
        add(&mut router, "/canon", Route::Canon)?;
        add(&mut router, "/digitaltwins/{id}", Route::Twin)?;
        add(
            &mut router,
            "/digitaltwins/{id}/components/{name}",
            Route::Component,
        )?;
        add(
            &mut router,
            "/digitaltwins/{id}/relationships",
            Route::Relationships,
        )?;
        add(
            &mut router,
            "/digitaltwins/{id}/relationships/{rid}",
            Route::Relationship,
        )?;
        add(
            &mut router,
            "/digitaltwins/{id}/incomingrelationships",
            Route::IncomingRelationships,
        )?;
        add(&mut router, "/query", Route::Query)?;
        Ok(Routes { alloc, router })
    }

    /// The path of the table that a path is.
    fn find(&self, path: &str) -> Option<Route>
        ensures { MatchOption result ((r : Route) (parts : List (List ℕ)) → Matches r parts path.now → ⊥) (λ r. (parts : List (List ℕ)) × Matches r parts path.now) }
    {
        match self.router.at(path) {
            Ok(found) => Some(*found.value),
            Err(_) => None,
        }
    }

    /// The ask that a request makes, or the refusal that its own bytes decide: the path is none of the table, the path
    /// does not have the method, a part of the path is no identifier, a parameter is no token, the body is no JSON text, it
    /// lists more than 250 models, a model breaks a local rule, the body is no patch, a twin's or relationship's body has a
    /// breach that shows without a model, or a query's has any, it gives another identifier than the path, its text is no
    /// query, or its token is none; of several the first in this order. Fails only for want of memory.
    #[tactic(auto, unfolding(crate::specs::Prepared::IsPrepared))]
    pub fn ask_of(&self, request: &Request) -> Result<Prepared, OutOfMemory>
        ensures { IfOk result (IsPrepared request.now) }
    {
        match self.find(request.path.as_str()) {
            Some(route) => asked_of(self.alloc, route, request),
            None => Ok(Prepared::Own(Refusal::NoRoute)),
        }
    }
}
