//! The routes.
ghost use Rattle.std.specs.Prelude.{◌≡◌, [], Some, None, Ok, Err, IfOk, IfErr, IfSome, IfNone, OnOk};
ghost use Rattle.std.specs.Option.{option_copied};
ghost use Rattle.gj_http.specs.Routes.{found_of, id_of, route_of};
ghost use Rattle.gj_http.specs.Table.{table, with_row};

use crate::found::{Found, RouteError, checked};
use crate::message::Method;
use gj_base::{Memory, Route};
use matchit::Router;
use std::alloc::Global;

/// The routes, as a router of their patterns.
#[derive(Drop)]
pub struct Routes {
    router: Router<Route>,
    ghost pinned: { router ≡ table },
}

impl Routes {
    /// All routes. Only this call takes memory.
    pub fn new(alloc: Global) -> Result<Routes, Memory> {
        let mut router = Router::new(alloc);
        add_all(&mut router)?;
        Ok(Routes { router })
    }

    /// The route of the path under the method. It takes no memory.
    pub fn find<'a>(&self, method: Method, path: &'a str) -> Result<Found<'a>, RouteError>
        ensures ok { IfOk result (λ found. found_of method path.now ≡ Ok (found.route, option_copied found.id)) }
        ensures err { IfErr result (λ error. found_of method path.now ≡ Err error) }
    {
        match self.route_at(path) {
            Some(found) => checked(method, found),
            None => Err(RouteError::NoRoute),
        }
    }

    /// The route of the path under its own method.
    fn route_at<'a>(&self, path: &'a str) -> Option<Found<'a>>
        ensures some { IfSome result (λ found. route_of path.now ≡ Some (found.route, option_copied found.id)) }
        ensures none { IfNone result (route_of path.now ≡ None) }
    {
        match self.router.at(path) {
            Ok(row) => {
                let route = *row.value;
                let id = id_in(route, path);
                Some(Found { route, id })
            }
            Err(_) => None,
        }
    }
}

/// Adds a route by its pattern.
fn add(router: &mut Router<Route>, pattern: &str, route: Route) -> Result<(), Memory>
    ensures { OnOk result (router.new ≡ with_row pattern.now route router.old) }
{
    match router.insert(pattern, route) {
        Ok(()) => Ok(()),
        Err(_) => Err(Memory),
    }
}

/// Adds all routes to a router of none.
#[tactic(auto, unfolding(crate::specs::Table::table))]
fn add_all(router: &mut Router<Route>) -> Result<(), Memory>
    requires { router.old ≡ [] }
    ensures { OnOk result (router.new ≡ table) }
{
    add(router, "/interactions", Route::Interactions)?;
    add(router, "/walk", Route::Walk)?;
    add(router, "/subgraph", Route::Subgraph)?;
    add(router, "/similar", Route::Similar)?;
    add(router, "/count", Route::Count)?;
    add(router, "/users/{id}", Route::User)?;
    add(router, "/posts/{id}", Route::Post)?;
    add(router, "/stats", Route::Stats)?;
    add(router, "/log/{from}", Route::Log)?;
    Ok(())
}

/// The text of the identifier, or of the place, in the path of a route.
fn id_in<'a>(route: Route, path: &'a str) -> Option<&'a str>
    ensures { option_copied result ≡ id_of route path.now }
{
    match route {
        Route::User => path.strip_prefix("/users/"),
        Route::Post => path.strip_prefix("/posts/"),
        Route::Log => path.strip_prefix("/log/"),
        _ => None,
    }
}
