//! A law of the crate. It is proved by its contract, and its body does nothing.
ghost use Rattle.std.specs.Prelude.{◌≡◌, ◌^◌};
ghost use Rattle.cds_words.specs.Numbers.{number_limit};
ghost use Rattle.cds_words.specs.declared.limits.TheConstants.{MOST_DIGITS, MOST_PORT, MOST_CONNECTIONS, MOST_SAMPLE_ROWS};

/// The limits of the command line.
pub fn the_limits()
    ensures numbers { (number_limit ≡ 2 ^ 64) × (MOST_DIGITS ≡ 20) }
    ensures options { (MOST_PORT ≡ 65535) × (MOST_CONNECTIONS ≡ 1000000) × (MOST_SAMPLE_ROWS ≡ 20) }
{}
