//! The nodes around a sample.
ghost use Rattle.std.specs.Prelude.{◌≡◌};
ghost use Rattle.cds_integrate.specs.Lines.{last_up_to, first_behind};

/// The last of some rising samples that doesn't lie behind `at`.
pub(crate) fn last_up_to(nodes: &[u32], at: u32) -> u32
    ensures { result ≡ last_up_to nodes.now at }
{
    let mut found = 0;
    for node in nodes {
        if *node <= at {
            found = *node;
        }
    }
    found
}

/// The first of some rising samples that lies behind `at`, or `at` where none does.
pub(crate) fn first_behind(nodes: &[u32], at: u32) -> u32
    ensures { result ≡ first_behind nodes.now at }
{
    for node in nodes {
        if at < *node {
            return *node;
        }
    }
    at
}
