//! What a request target names.

ghost use Rattle.std.specs.Prelude.{◌≡◌, ◌==◌, get_or, Some};
ghost use Rattle.std.specs.List.{before_first, after_first};
ghost use Rattle.cds_desk.specs.Routes.{route_table, is_slash, path_of, segment, number_at, number_in_path};
ghost use Rattle.cds_desk.specs.Routes.{path_number, named_on, target_of};

use crate::routes::{Route, find};
use cds_base::Name;
use cds_words::number_in;
use matchit::Router;

/// The greatest number that a path can name.
const MOST_PATH_NUMBER: u32 = 4_294_967_295;

/// The place of the name among the segments of a path.
const NAME_PLACE: u32 = 2;

/// What a request target names.
#[derive(Clone, Copy, Debug)]
pub struct Target {
    /// The route that its path fits.
    pub route: Route,
    /// The name in the path.
    pub name: Name,
    /// The number in the path; 0 where the paths of the route have none.
    pub number: u32,
}

/// What the request target names. None exactly where its path, which ends before the first `?`, fits no pattern, or
/// where a part of it is no name or no number from 1 to 4,294,967,295 without leading zeros.
pub(crate) fn read_target(router: &Router<Route>, target: &str) -> Option<Target>
    requires { router.now ≡ route_table }
    ensures { result ≡ target_of target.now }
{
    let path = path_of(target);
    let Some(route) = find(router, path) else {
        return None;
    };
    named_on(route, path)
}

/// What stands before the first `?`.
fn path_of(target: &str) -> &str
    ensures { result.now ≡ path_of target.now }
{
    match target.split_once('?') {
        Some((path, _)) => path,
        None => target,
    }
}

/// What the path names on this route.
fn named_on(route: Route, path: &str) -> Option<Target>
    ensures { result ≡ named_on route path.now }
{
    let Some(name) = Name::new(segment(path, NAME_PLACE).as_bytes()) else {
        return None;
    };
    let Some(number) = number_in_path(path, route.number_at()) else {
        return None;
    };
    Some(Target {
        route,
        name,
        number,
    })
}

/// The number that a path has at this place, and 0 where it has no place for one.
fn number_in_path(path: &str, place: Option<u32>) -> Option<u32>
    ensures { result ≡ number_in_path path.now place }
{
    match place {
        Some(place) => path_number(segment(path, place)),
        None => Some(0),
    }
}

/// The segment of a path at a place; at 0 stands what is before the first slash.
fn segment(path: &str, place: u32) -> &str
    ensures { result.now ≡ segment path.now place }
{
    if place == 0 {
        return before_slash(path);
    }
    segment(after_slash(path), place - 1)
}

/// What stands before the first slash.
fn before_slash(text: &str) -> &str
    ensures { result.now ≡ before_first is_slash text.now }
{
    match text.split_once('/') {
        Some((before, _)) => before,
        None => text,
    }
}

/// What stands after the first slash, nothing where there is none.
fn after_slash(text: &str) -> &str
    ensures { result.now ≡ after_first is_slash text.now }
{
    match text.split_once('/') {
        Some((_, after)) => after,
        None => "",
    }
}

/// The number that this part of a path writes, 1 to 4,294,967,295 without leading zeros.
fn path_number(part: &str) -> Option<u32>
    ensures { result ≡ path_number part.now }
{
    if begins_with_zero(part) {
        return None;
    }
    number_in(part, 1, MOST_PATH_NUMBER)
}

/// Whether there is nothing, or a zero first.
fn begins_with_zero(part: &str) -> bool
    ensures { result ≡ (get_or part.now 0 48 == 48) }
{
    part.is_empty() || part.as_bytes()[0] == b'0'
}
