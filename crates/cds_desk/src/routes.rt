//! The routes: patterns of paths, each with one method.

ghost use Rattle.std.specs.Prelude.{◌≡◌, IfOk, None, option_map};
ghost use Rattle.matchit.specs.Seek.{first};
ghost use Rattle.cds_desk.specs.Routes.{pattern_of, method_of, number_at, all_routes, with_route, with_routes};
ghost use Rattle.cds_desk.specs.Routes.{route_table};

use cds_base::NoMemory;
use http::Method;
use matchit::Router;
use std::alloc::Global;

/// The routes of the server. Each has a pattern of paths and one method.
#[derive(Clone, Copy, Debug, PartialEq, Eq)]
pub enum Route {
    /// A trace is put under a name.
    PutTrace,
    /// The text of a trace's version is read.
    GetTrace,
    /// The draft of a method is put.
    PutDraft,
    /// The draft of a method is frozen as its next version.
    PostVersion,
    /// The text of a method's version is read.
    GetMethod,
    /// A sequence is put under a name.
    PutSequence,
    /// The manual events of a row of a sequence are put.
    PutEvents,
    /// A sequence is bound to another version of its method.
    PostReprocess,
    /// A sequence is signed.
    PostSignature,
    /// The results of a sequence are read.
    GetResults,
    /// The results of a row of a sequence are read.
    GetRow,
    /// The system suitability of a sequence is read.
    GetSuitability,
    /// The text of a signature is read.
    GetSignature,
}

impl Route {
    /// The pattern of its paths.
    pub(crate) fn pattern(self) -> &'static str
        ensures { result.now ≡ pattern_of self }
    {
        match self {
            Route::PutTrace => "/traces/{name}",
            Route::GetTrace => "/traces/{name}/{version}",
            Route::PutDraft => "/methods/{name}/draft",
            Route::PostVersion => "/methods/{name}/versions",
            Route::GetMethod => "/methods/{name}/versions/{version}",
            Route::PutSequence => "/sequences/{name}",
            Route::PutEvents => "/sequences/{name}/rows/{number}/events",
            Route::PostReprocess => "/sequences/{name}/reprocess",
            Route::PostSignature => "/sequences/{name}/signatures",
            Route::GetResults => "/sequences/{name}/results",
            Route::GetRow => "/sequences/{name}/results/{number}",
            Route::GetSuitability => "/sequences/{name}/suitability",
            Route::GetSignature => "/sequences/{name}/signatures/{number}",
        }
    }

    /// Its method.
    pub(crate) fn method(self) -> Method
        ensures { result ≡ method_of self }
    {
        match self {
            Route::PutTrace | Route::PutDraft | Route::PutSequence | Route::PutEvents =>
                Method::PUT,
            Route::GetTrace
            | Route::GetMethod
            | Route::GetResults
            | Route::GetRow
            | Route::GetSuitability
            | Route::GetSignature => Method::GET,
            Route::PostVersion | Route::PostReprocess | Route::PostSignature => Method::POST,
        }
    }

    /// The place of the number among the segments of its paths, if they have one.
    pub(crate) fn number_at(self) -> Option<u32>
        ensures { result ≡ number_at self }
    {
        match self {
            Route::GetTrace => Some(3),
            Route::GetMethod | Route::PutEvents | Route::GetRow | Route::GetSignature => Some(4),
            Route::PutTrace
            | Route::PutDraft
            | Route::PostVersion
            | Route::PutSequence
            | Route::PostReprocess
            | Route::PostSignature
            | Route::GetResults
            | Route::GetSuitability => None,
        }
    }
}

/// All routes.
fn all_routes() -> [Route; 13]
    ensures { result ≡ all_routes }
{
    [
        Route::PutTrace,
        Route::GetTrace,
        Route::PutDraft,
        Route::PostVersion,
        Route::GetMethod,
        Route::PutSequence,
        Route::PutEvents,
        Route::PostReprocess,
        Route::PostSignature,
        Route::GetResults,
        Route::GetRow,
        Route::GetSuitability,
        Route::GetSignature,
    ]
}

/// The router over all routes.
pub(crate) fn route_table(alloc: Global) -> Result<Router<Route>, NoMemory>
    ensures { IfOk result (λ router. router ≡ route_table) }
{
    let mut router = Router::new(alloc);
    add_all(&mut router, &all_routes())?;
    Ok(router)
}

/// Adds the routes, one after the other.
fn add_all(router: &mut Router<Route>, routes: &[Route]) -> Result<(), NoMemory>
    ensures { IfOk result (λ _. router.new ≡ with_routes routes.now router.old) }
{
    let Some((route, rest)) = routes.split_first() else {
        return Ok(());
    };
    add(router, *route)?;
    add_all(router, rest)
}

/// Adds a route. The patterns are ours and none is like another, so memory is all that can be wanting.
fn add(router: &mut Router<Route>, route: Route) -> Result<(), NoMemory>
    ensures { IfOk result (λ _. router.new ≡ with_route route router.old) }
{
    match router.insert(route.pattern(), route) {
        Ok(()) => Ok(()),
        Err(_) => Err(NoMemory),
    }
}

/// The route whose pattern the path fits.
pub(crate) fn find(router: &Router<Route>, path: &str) -> Option<Route>
    ensures { result ≡ option_map (λ found. found.value) (first router.now path.now) }
{
    match router.at(path) {
        Ok(found) => Some(*found.value),
        Err(_) => None,
    }
}
