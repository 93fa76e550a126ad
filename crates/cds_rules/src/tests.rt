use super::*;
use cds_base::{Event, Name};
use std::alloc::{AllocError, Global};
use std::test::Fail;

// The least that a method states; the last line is replaced where a case adds to it.
const TEXT: &str =
    "bunch = 1\nslope_on = 5\nslope_off = 6\nplateau = 3\nfuse = 2\nmin_area = 7\nmin_height = 8\nweight = \"origin\"\n# end\n";

const LISTS: &str =
    "dead_time_us = 14400000000\nnoise_from_ms = 0\nnoise_to_ms = 14400000\nrules = 2
[[component]]\nname = \"caf\"\ntime_ms = 5000\nwindow_ms = 500
[[component]]\nname = \"theo.2\"\ntime_ms = 0\nwindow_ms = 14400000
[[event]]\nkind = \"skim\"\nfrom_ms = 1\nto_ms = 2
[[event]]\nkind = \"slope\"\nat_ms = 3\non = 1\noff = 1000000000
[[check]]\nkind = \"resolution\"\ncomponent = \"theo.2\"\nother = \"caf\"\nlimit = 150
[[check]]\nkind = \"r2\"\ncomponent = \"caf\"\nlimit = 10000\n";

// A line for each text that is refused: the number of the refusal; what it shows; a part of the text above; and what
// stands in its place, where `; ` ends a line.
const REFUSALS: &str = r#"1||bunch = 1|bunch =
1||bunch = 1|bunch = 1; bunch = 1
2|bunch|bunch = 1|# none
2|bunch|bunch = 1|a = 1
4|bunch|bunch = 1|bunch = 0
4|bunch|bunch = 1|bunch = 65
4|bunch|bunch = 1|bunch = 1.0
4|slope_on|slope_on = 5|slope_on = 1000000001
4|slope_off|slope_off = 6|slope_off = 0
4|plateau|plateau = 3|plateau = 1001
4|fuse|fuse = 2|fuse = -1
4|min_area|min_area = 7|min_area = 4000000000000001
4|min_height|min_height = 8|min_height = 200000001
4|weight|"origin"|"none"
4|dead_time_us|# end|dead_time_us = 0
2|noise_from_ms|# end|noise_to_ms = "x"
2|noise_to_ms|# end|noise_from_ms = 5
4|noise_to_ms|# end|noise_from_ms = 5; noise_to_ms = 5
4|rules|# end|rules = 0
4|rules|# end|rules = 3
3|ab|# end|z = 1; ab = 1; b = 1
3|z|# end|z = 1; component = 1
4|component|# end|event = 1; component = 1
4|event|# end|check = 1; event = 1
4|component.1|# end|component = [1]
6|component|# end|component = [1,1,1,1,1,1,1,1,1,1,1,1,1,1,1,1,1,1,1,1,1,1,1,1,1,1,1,1,1,1,1,1,1]
2|component.1.name|# end|component = [{}]
4|component.1.name|# end|component = [{name = "a b"}]
5|a|# end|component = [{name = "a", time_ms = 1, window_ms = 1}, {name = "a"}]
4|component.1.time_ms|# end|component = [{name = "a", time_ms = 14400001, window_ms = 1}]
2|component.1.window_ms|# end|component = [{name = "a", time_ms = 1}]
3|component.1.x|# end|component = [{name = "a", time_ms = 1, window_ms = 1, x = 1}]
2|event.1.kind|# end|event = [{}]
4|event.1.kind|# end|event = [{kind = "gate"}]
4|event.1.to_ms|# end|event = [{kind = "valley", from_ms = 5, to_ms = 5}]
2|event.1.at_ms|# end|event = [{kind = "drop"}]
3|event.1.to_ms|# end|event = [{kind = "drop", at_ms = 1, to_ms = 2}]
4|event.1.on|# end|event = [{kind = "slope", at_ms = 1, on = 0, off = 1}]
4|event.1.to_ms|# end|event = [{kind = "inhibit", from_ms = 0, to_ms = 14400001}]
4|check.1.kind|# end|check = [{kind = "area"}]
4|check.1.component|# end|check = [{kind = "plates", component = "a"}]
2|check.1.other|# end|component = [{name = "a", time_ms = 1, window_ms = 1}]; check = [{kind = "resolution", component = "a"}]
4|check.1.other|# end|component = [{name = "a", time_ms = 1, window_ms = 1}]; check = [{kind = "resolution", component = "a", other = "a"}]
4|check.1.limit|# end|component = [{name = "a", time_ms = 1, window_ms = 1}]; check = [{kind = "tailing", component = "a", limit = 1000001}]
4|check.1.limit|# end|component = [{name = "a", time_ms = 1, window_ms = 1}]; check = [{kind = "r2", component = "a", limit = 10001}]
4|check.1.limit|# end|component = [{name = "a", time_ms = 1, window_ms = 1}]; check = [{kind = "tailing", component = "a", limit = 0}]
3|check.1.other|# end|component = [{name = "a", time_ms = 1, window_ms = 1}]; check = [{kind = "tailing", component = "a", limit = 1, other = "a"}]
4|check.2|# end|component = [{name = "a", time_ms = 1, window_ms = 1}]; check = [{kind = "plates", component = "a", limit = 1}, 1]
2|check.1.limit|# end|component = [{name = "a", time_ms = 1, window_ms = 1}, {name = "b", time_ms = 1, window_ms = 1}]; check = [{kind = "rsd_time", component = "b"}]
"#;

// Whether the text of a line is refused as the line says.
fn is_refused(alloc: Global, line: &str) -> Result<bool, Fail> {
    let (number, rest) = line.split_once('|').ok_or("a line has a number")?;
    let (shown, rest) = rest.split_once('|').ok_or("a line says what is shown")?;
    let (part, instead) = rest.split_once('|').ok_or("a line has a part")?;
    let instead = instead.replace(alloc, "; ", "\n")?;
    let text = TEXT.replacen(alloc, part, instead.as_str(), 1)?;
    match Method::read_toml(alloc, text.as_bytes()) {
        Ok(_) => Ok(false),
        Err(error) => {
            let told = error.number().ok_or("memory is wanting")?;
            Ok(number.parse() == Ok(told) && error.field() == shown.as_bytes())
        }
    }
}

#[test]
fn refuses_each_fault_by_number_and_path(rt: HostRuntime) -> Result<(), Fail> {
    for line in REFUSALS.lines() {
        assert!(rt; is_refused(rt.alloc(), line)?, "at {}", line);
    }
    Ok(())
}

// A method's text with all that it may state, filled with a comment up to the most bytes.
fn longest_method(alloc: Global) -> Result<Method, MethodError> {
    let mut text = TEXT.replacen(alloc, "# end\n", LISTS, 1)?;
    for _ in text.len()..MOST_METHOD_BYTES {
        text.push_str("#")?;
    }
    Method::read_toml(alloc, text.as_bytes())
}

#[test]
fn reads_each_field_and_the_longest_text(rt: HostRuntime) -> Result<(), Fail> {
    let method = longest_method(rt.alloc())?;
    let numbers = [
        method.bunch,
        method.slope_on,
        method.slope_off,
        method.plateau,
        method.fuse,
    ];
    assert_eq!(rt; numbers, [1, 5, 6, 3, 2]);
    assert_eq!(rt; (method.min_area, method.min_height), (7, 8));
    assert_eq!(rt; method.weight, Weight::Origin);
    assert_eq!(rt; method.dead_time_us, Some(14_400_000_000));
    assert_eq!(rt;
        (method.noise_from_ms, method.noise_to_ms),
        (Some(0), Some(14_400_000))
    );
    assert_eq!(rt; method.rules, 2);
    let caf = Component {
        name: Name::new(b"caf").ok_or("caf is a name")?,
        time_ms: 5000,
        window_ms: 500,
    };
    let theo = Component {
        name: Name::new(b"theo.2").ok_or("theo.2 is a name")?,
        time_ms: 0,
        window_ms: 14_400_000,
    };
    assert_eq!(rt; method.components.as_slice(), [caf, theo].as_slice());
    let skim = Event::Skim { from: 1, to: 2 };
    let slope = Event::Slope {
        at: 3,
        on: 1,
        off: 1_000_000_000,
    };
    assert_eq!(rt; method.events.as_slice(), [skim, slope].as_slice());
    let resolution = Check {
        kind: CheckKind::Resolution,
        component: 2,
        other: Some(1),
        limit: 150,
    };
    let determination = Check {
        kind: CheckKind::R2,
        component: 1,
        other: None,
        limit: 10_000,
    };
    assert_eq!(rt;
        method.checks.as_slice(),
        [resolution, determination].as_slice()
    );
    Ok(())
}

#[test]
fn refuses_bytes_above_the_limit_and_follows_the_first_rules_where_none_are_stated(
    rt: HostRuntime,
) -> Result<(), Fail> {
    let long = vec![in rt.alloc(); b'#'; MOST_METHOD_BYTES + 1]?;
    let longer = Method::read_toml(rt.alloc(), long.as_slice());
    assert!(rt; matches!(&longer, Err(MethodError::TooLong)));
    let other = Method::read_toml(rt.alloc(), b"bunch = 1 # \xff");
    assert!(rt; matches!(&other, Err(MethodError::NotToml)));
    let least = Method::read_toml(rt.alloc(), TEXT.as_bytes())?;
    let stated = TEXT.replacen(rt.alloc(), "# end", "rules = 1", 1)?;
    let first = Method::read_toml(rt.alloc(), stated.as_bytes())?;
    assert_eq!(rt; (least.rules, first.rules), (1, 1));
    let slopes = Method::of_slopes(rt.alloc(), 64, 1, 2, 0);
    assert_eq!(rt;
        (
            slopes.bunch,
            slopes.slope_on,
            slopes.slope_off,
            slopes.plateau
        ),
        (64, 1, 2, 0)
    );
    Ok(())
}
