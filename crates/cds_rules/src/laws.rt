//! Laws of methods. Each is proved by its contract, and its body does nothing.
ghost use Rattle.std.specs.Prelude.{◌≡◌};
ghost use Rattle.cds_rules.specs.declared.limits.TheConstants.{MOST_BUNCH, MOST_PLATEAU, MOST_FUSE, MOST_AREA};
ghost use Rattle.cds_rules.specs.declared.limits.TheConstants.{MOST_HEIGHT, FIRST_RULES, LAST_RULES, MOST_COMPONENTS};
ghost use Rattle.cds_rules.specs.declared.limits.TheConstants.{MOST_CHECKS, MOST_LIMIT, MOST_R2_LIMIT, MOST_METHOD_BYTES};

/// The limits that the definitions of methods cite. Those of events and of times stand with these.
pub fn the_limits()
    ensures peaks { (MOST_BUNCH ≡ 64) × (MOST_PLATEAU ≡ 1000) × (MOST_FUSE ≡ 1000) }
    ensures least { (MOST_AREA ≡ 4000000000000000) × (MOST_HEIGHT ≡ 200000000) }
    ensures editions { (FIRST_RULES ≡ 1) × (LAST_RULES ≡ 2) }
    ensures lists { (MOST_COMPONENTS ≡ 32) × (MOST_CHECKS ≡ 64) }
    ensures checks { (MOST_LIMIT ≡ 1000000) × (MOST_R2_LIMIT ≡ 10000) }
    ensures texts { MOST_METHOD_BYTES ≡ 65536 }
{}
