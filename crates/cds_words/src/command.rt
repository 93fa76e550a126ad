//! The command that the words of the command line state.

ghost use Rattle.std.specs.Prelude.{◌≡◌, ◌≤◌, [], IfSome, map, option_map, unwrap_or};
ghost use Rattle.std.specs.Option.{option_and_then};
ghost use Rattle.std.specs.String.{string_bytes};
ghost use Rattle.cds_rules.specs.Ranges.{SlopeRanges};
ghost use Rattle.cds_words.specs.Numbers.{number_of};
ghost use Rattle.cds_words.specs.Options.{has_detection, has_serving, has_demo};
ghost use Rattle.cds_words.specs.Commands.{command_is, command_of, command_named, HasRanges, number_given};
ghost use Rattle.cds_words.specs.Commands.{peaks_of, options_from, session_of, serve_of, demo_of, migrate_of};

use crate::limits::{MOST_CONNECTIONS, MOST_PORT, MOST_SAMPLE_ROWS};
use crate::number::{number_in, number_of};
use crate::options::{Given, options_of};
use cds_base::MOST_SLOPE;
use cds_rules::{MOST_BUNCH, MOST_PLATEAU};

/// What the words of `peaks` set.
#[derive(Clone, Copy, Debug, PartialEq, Eq)]
pub struct PeaksOptions {
    /// The samples of a bunch, 1 to 64.
    pub bunch: u32,
    /// The slope at which a climb begins, 1 to 1,000,000,000.
    pub slope_on: u32,
    /// The slope at which a fall ends, 1 to 1,000,000,000.
    pub slope_off: u32,
    /// The flat bunches that a climb may have, 0 to 1,000.
    pub plateau: u32,
}

/// The command that the words state.
#[derive(Clone, Copy, Debug, PartialEq, Eq)]
pub enum CommandLine<'w> {
    /// `peaks` with its options.
    Peaks(PeaksOptions),
    /// `session` over the store of this name, which is empty where none was named.
    Session(&'w str),
    /// `serve` at this port, for this number of connections, over the store of this name, empty where none was named.
    Serve {
        port: u16,
        connections: u32,
        store: &'w str,
    },
    /// `demo` with this seed of its noise and this number of sample rows.
    Demo {
        seed: u64,
        rows: u32,
    },
    /// `migrate` of the store of this name.
    Migrate(&'w str),
}

/// The command that the words state, whose numbers lie in their ranges. None exactly where they are no command.
#[tactic(auto, unfolding(crate::specs::Commands::command_of))]
pub fn read_words(words: &[String]) -> Option<CommandLine<'_>>
    ensures value { option_map command_is result ≡ command_of (map string_bytes words.now) }
    ensures ranges { IfSome result HasRanges }
{
    let Some(name) = words.get(0) else {
        return None;
    };
    let Some(given) = options_of(&words[1..]) else {
        return None;
    };
    command_named(name.as_str(), &given)
}

/// The command of a name with these options.
fn command_named<'w>(name: &str, given: &Given<'w>) -> Option<CommandLine<'w>>
    ensures value { option_map command_is result ≡ command_named name.now given.now }
    ensures ranges { IfSome result HasRanges }
{
    if name == "peaks" {
        return peaks_of(given);
    }
    if name == "session" {
        return session_of(given);
    }
    if name == "serve" {
        return serve_of(given);
    }
    if name == "demo" {
        return demo_of(given);
    }
    if name == "migrate" {
        return migrate_of(given);
    }
    None
}

/// `peaks` with its options.
fn peaks_of<'w>(given: &Given<'w>) -> Option<CommandLine<'w>>
    ensures value { option_map command_is result ≡ peaks_of given.now }
    ensures ranges { IfSome result HasRanges }
{
    if given.store.is_some() || has_serving(given) || has_demo(given) {
        return None;
    }
    match peaks_options(given) {
        Some(options) => Some(CommandLine::Peaks(options)),
        None => None,
    }
}

/// The four numbers of `peaks`, where each is there and in its range.
fn peaks_options(given: &Given<'_>) -> Option<PeaksOptions>
    ensures value { result ≡ options_from (number_given 1 MOST_BUNCH given.now.bunch)
        (number_given 1 MOST_SLOPE given.now.slope_on) (number_given 1 MOST_SLOPE given.now.slope_off)
        (number_given 0 MOST_PLATEAU given.now.plateau) }
    ensures ranges { IfSome result (λ o. SlopeRanges o.bunch o.slope_on o.slope_off o.plateau) }
{
    let Some(bunch) = number_given(given.bunch, 1, MOST_BUNCH) else {
        return None;
    };
    let Some(slope_on) = number_given(given.slope_on, 1, MOST_SLOPE) else {
        return None;
    };
    let Some(slope_off) = number_given(given.slope_off, 1, MOST_SLOPE) else {
        return None;
    };
    let Some(plateau) = number_given(given.plateau, 0, MOST_PLATEAU) else {
        return None;
    };
    Some(PeaksOptions {
        bunch,
        slope_on,
        slope_off,
        plateau,
    })
}

/// `session` over the store that is named, or the one of the empty name.
fn session_of<'w>(given: &Given<'w>) -> Option<CommandLine<'w>>
    ensures value { option_map command_is result ≡ session_of given.now }
    ensures ranges { IfSome result HasRanges }
{
    if has_detection(given) || has_serving(given) || has_demo(given) {
        return None;
    }
    Some(CommandLine::Session(store_named(given.store)))
}

/// `serve` with its options.
fn serve_of<'w>(given: &Given<'w>) -> Option<CommandLine<'w>>
    ensures value { option_map command_is result ≡ serve_of given.now }
    ensures ranges { IfSome result HasRanges }
{
    if has_detection(given) || has_demo(given) {
        return None;
    }
    let Some(port) = number_given(given.port, 1, MOST_PORT) else {
        return None;
    };
    let Some(connections) = number_given(given.connections, 1, MOST_CONNECTIONS) else {
        return None;
    };
    Some(CommandLine::Serve {
        port: port as u16,
        connections,
        store: store_named(given.store),
    })
}

/// `demo` with its options.
fn demo_of<'w>(given: &Given<'w>) -> Option<CommandLine<'w>>
    ensures value { option_map command_is result ≡ demo_of given.now }
    ensures ranges { IfSome result HasRanges }
{
    if has_detection(given) || has_serving(given) || given.store.is_some() {
        return None;
    }
    let Some(seed) = seed_given(given.seed) else {
        return None;
    };
    let Some(rows) = number_given(given.rows, 1, MOST_SAMPLE_ROWS) else {
        return None;
    };
    Some(CommandLine::Demo { seed, rows })
}

/// `migrate` of the store that is named.
fn migrate_of<'w>(given: &Given<'w>) -> Option<CommandLine<'w>>
    ensures value { option_map command_is result ≡ migrate_of given.now }
    ensures ranges { IfSome result HasRanges }
{
    if has_detection(given) || has_serving(given) || has_demo(given) {
        return None;
    }
    match given.store {
        Some(store) => Some(CommandLine::Migrate(store)),
        None => None,
    }
}

/// The name of a store, empty where none was given.
fn store_named(given: Option<&str>) -> &str
    ensures { result.now ≡ unwrap_or (option_map (λ s. s.now) given.entry) [] }
{
    match given {
        Some(name) => name,
        None => "",
    }
}

/// Whether an option of `peaks` was given.
fn has_detection(given: &Given<'_>) -> bool
    ensures { result ≡ has_detection given.now }
{
    given.bunch.is_some()
        || given.slope_on.is_some()
        || given.slope_off.is_some()
        || given.plateau.is_some()
}

/// Whether an option of `serve` alone was given.
fn has_serving(given: &Given<'_>) -> bool
    ensures { result ≡ has_serving given.now }
{
    given.port.is_some() || given.connections.is_some()
}

/// Whether an option of `demo` was given.
fn has_demo(given: &Given<'_>) -> bool
    ensures { result ≡ has_demo given.now }
{
    given.seed.is_some() || given.rows.is_some()
}

/// A number in its range, where the option was given.
fn number_given(given: Option<&str>, low: u32, high: u32) -> Option<u32>
    ensures value { result ≡ number_given low high (option_map (λ s. s.now) given.entry) }
    ensures range { IfSome result (λ n. (low ≤ n) × (n ≤ high)) }
{
    match given {
        Some(word) => number_in(word, low, high),
        None => None,
    }
}

/// Any number below 2^64, where the option was given.
fn seed_given(given: Option<&str>) -> Option<u64>
    ensures { result ≡ option_and_then number_of (option_map (λ s. s.now) given.entry) }
{
    match given {
        Some(word) => number_of(word),
        None => None,
    }
}
