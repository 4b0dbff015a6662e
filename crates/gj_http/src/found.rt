//! What a path under a method leads to.
ghost use Rattle.std.specs.Prelude.{◌≡◌, Some, Ok, Err, IfOk, IfErr};
ghost use Rattle.std.specs.Option.{option_copied};
ghost use Rattle.gj_http.specs.Routes.{is_get, is_method, under_method};

use crate::message::Method;
use gj_base::Route;

/// A route, with the text of the identifier, or of the place, where the path has one.
#[derive(Clone, Copy)]
pub struct Found<'a> {
    pub route: Route,
    pub id: Option<&'a str>,
}

/// Why a message has no route.
#[derive(Clone, Copy, Debug, PartialEq, Eq)]
pub enum RouteError {
    /// No route has the path.
    NoRoute,
    /// A route has the path, but takes another method: GET where `get` is set, else POST.
    WrongMethod { get: bool },
}

/// The route, if the method is its own.
pub(crate) fn checked<'a>(method: Method, found: Found<'a>) -> Result<Found<'a>, RouteError>
    ensures ok { IfOk result (λ same. under_method method (Some (found.entry.route, option_copied found.entry.id))
        ≡ Ok (same.route, option_copied same.id)) }
    ensures err { IfErr result (λ error. under_method method (Some (found.entry.route, option_copied found.entry.id))
        ≡ Err error) }
{
    let get = takes_get(found.route);
    if is_own(get, method) {
        Ok(found)
    } else {
        Err(RouteError::WrongMethod { get })
    }
}

/// Whether the route's method is GET.
fn takes_get(route: Route) -> bool
    ensures { result ≡ is_get route }
{
    matches!(route, Route::User | Route::Post | Route::Stats | Route::Log)
}

/// Whether the method is the one of a route that takes GET, or POST.
fn is_own(get: bool, method: Method) -> bool
    ensures { result ≡ is_method get method }
{
    match method {
        Method::Get => get,
        Method::Post => !get,
        Method::Other => false,
    }
}
