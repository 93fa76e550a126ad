//! The options behind the name of a command: in any order, each at most once, as two words `--x v` or one word `--x=v`.

ghost use Rattle.std.specs.Prelude.{◌≡◌, ◌∷◌, false, true, IfNone, IfSome, map, option_map};
ghost use Rattle.std.specs.List.{before_first, after_first};
ghost use Rattle.std.specs.String.{string_bytes};
ghost use Rattle.cds_words.specs.Options.{given_from, nothing_given, with_option, with_service, with_demo};
ghost use Rattle.cds_words.specs.Options.{is_joined, is_equals, is_value, once};

use std::marker::Model;

/// The values that options give, each where it was stated.
#[derive(Drop)]
pub(crate) struct Given<'w> {
    pub(crate) bunch: Option<&'w str>,
    pub(crate) slope_on: Option<&'w str>,
    pub(crate) slope_off: Option<&'w str>,
    pub(crate) plateau: Option<&'w str>,
    pub(crate) store: Option<&'w str>,
    pub(crate) port: Option<&'w str>,
    pub(crate) connections: Option<&'w str>,
    pub(crate) seed: Option<&'w str>,
    pub(crate) rows: Option<&'w str>,
}

impl<'w> Model for Given<'w> {
    ghost use Rattle.std.specs.Prelude.{option_map};
    ghost use Rattle.cds_words.specs.Options.{Given};

    ghost Value = { Given };

    ghost view = { λ g. record {
      bunch = option_map (λ s. s.now) g.bunch;
      slope_on = option_map (λ s. s.now) g.slope_on;
      slope_off = option_map (λ s. s.now) g.slope_off;
      plateau = option_map (λ s. s.now) g.plateau;
      store = option_map (λ s. s.now) g.store;
      port = option_map (λ s. s.now) g.port;
      connections = option_map (λ s. s.now) g.connections;
      seed = option_map (λ s. s.now) g.seed;
      rows = option_map (λ s. s.now) g.rows;
    } };
}

/// What the options give that these words state. None exactly where they state none.
pub(crate) fn options_of(words: &[String]) -> Option<Given<'_>>
    ensures { result ≡ given_from nothing_given (map string_bytes words.now) }
{
    given_from(nothing_given(), words)
}

/// What these words give behind what was given before. None exactly where they state no options.
#[cycle(words)]
#[tactic(auto, unfolding(crate::specs::Options::given_from))]
fn given_from<'w>(given: Given<'w>, words: &'w [String]) -> Option<Given<'w>>
    ensures { result ≡ given_from given.entry (map string_bytes words.now) }
{
    match words {
        [] => Some(given),
        [word, rest @ ..] => match joined(word.as_str()) {
            Some((name, value)) => {
                let Some(more) = with_option(given, name, value) else {
                    return None;
                };
                given_from(more, rest)
            }
            None => given_from_pair(given, word.as_str(), rest),
        },
    }
}

/// What a word that has no `=` and the words behind it give, the next of which is its value.
#[cycle(words)]
#[tactic(auto, unfolding(crate::specs::Options::given_from))]
fn given_from_pair<'w>(given: Given<'w>, name: &str, words: &'w [String]) -> Option<Given<'w>>
    requires { is_joined name.now ≡ false }
    ensures { result ≡ given_from given.entry (name.now ∷ map string_bytes words.now) }
{
    match words {
        [] => None,
        [value, rest @ ..] => {
            let Some(more) = with_option(given, name, value.as_str()) else {
                return None;
            };
            given_from(more, rest)
        }
    }
}

/// No option.
fn nothing_given<'w>() -> Given<'w>
    ensures { result ≡ nothing_given }
{
    Given {
        bunch: None,
        slope_on: None,
        slope_off: None,
        plateau: None,
        store: None,
        port: None,
        connections: None,
        seed: None,
        rows: None,
    }
}

/// The name and the value of an option that is stated in one word.
fn joined(word: &str) -> Option<(&str, &str)>
    ensures none { IfNone result (is_joined word.now ≡ false) }
    ensures some { IfSome result (λ x. (is_joined word.now ≡ true) × (x.0.now ≡ before_first is_equals word.now)
        × (x.1.now ≡ after_first is_equals word.now)) }
{
    word.split_once('=')
}

/// What is given with one more option. None where its name is unknown, it was stated before, or its value is none.
#[tactic(auto, unfolding(crate::specs::Options::with_option))]
fn with_option<'w>(given: Given<'w>, name: &str, value: &'w str) -> Option<Given<'w>>
    ensures { result ≡ with_option given.entry name.now value.now }
{
    if name == "--bunch" {
        let Some(value) = once(given.bunch, value) else {
            return None;
        };
        return Some(Given {
            bunch: Some(value),
            ..given
        });
    }
    if name == "--on" {
        let Some(value) = once(given.slope_on, value) else {
            return None;
        };
        return Some(Given {
            slope_on: Some(value),
            ..given
        });
    }
    if name == "--off" {
        let Some(value) = once(given.slope_off, value) else {
            return None;
        };
        return Some(Given {
            slope_off: Some(value),
            ..given
        });
    }
    if name == "--plateau" {
        let Some(value) = once(given.plateau, value) else {
            return None;
        };
        return Some(Given {
            plateau: Some(value),
            ..given
        });
    }
    with_service(given, name, value)
}

/// What is given with one more option of a store, a server or a demo.
#[tactic(auto, unfolding(crate::specs::Options::with_service))]
fn with_service<'w>(given: Given<'w>, name: &str, value: &'w str) -> Option<Given<'w>>
    ensures { result ≡ with_service given.entry name.now value.now }
{
    if name == "--store" {
        let Some(value) = once(given.store, value) else {
            return None;
        };
        return Some(Given {
            store: Some(value),
            ..given
        });
    }
    if name == "--port" {
        let Some(value) = once(given.port, value) else {
            return None;
        };
        return Some(Given {
            port: Some(value),
            ..given
        });
    }
    if name == "--connections" {
        let Some(value) = once(given.connections, value) else {
            return None;
        };
        return Some(Given {
            connections: Some(value),
            ..given
        });
    }
    with_demo(given, name, value)
}

/// What is given with one more option of a demo.
#[tactic(auto, unfolding(crate::specs::Options::with_demo))]
fn with_demo<'w>(given: Given<'w>, name: &str, value: &'w str) -> Option<Given<'w>>
    ensures { result ≡ with_demo given.entry name.now value.now }
{
    if name == "--seed" {
        let Some(value) = once(given.seed, value) else {
            return None;
        };
        return Some(Given {
            seed: Some(value),
            ..given
        });
    }
    if name == "--rows" {
        let Some(value) = once(given.rows, value) else {
            return None;
        };
        return Some(Given {
            rows: Some(value),
            ..given
        });
    }
    None
}

/// The value of an option that has none yet.
fn once<'w>(kept: Option<&str>, value: &'w str) -> Option<&'w str>
    ensures { option_map (λ s. s.now) result ≡ once (option_map (λ s. s.now) kept.entry) value.now }
{
    match kept {
        Some(_) => None,
        None if is_value(value.as_bytes()) => Some(value),
        None => None,
    }
}

/// Whether a value isn't empty and doesn't begin with `-`.
fn is_value(value: &[u8]) -> bool
    ensures { result ≡ is_value value.now }
{
    match value.get(0) {
        Some(first) => *first != b'-',
        None => false,
    }
}
