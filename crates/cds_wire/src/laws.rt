//! Laws of request bodies. Each is proved by its contract, and its body does nothing.
ghost use Rattle.std.specs.Prelude.{◌≡◌, ◌-◌, ◌^◌, pos, neg_ℤ};
ghost use Rattle.cds_wire.specs.declared.limits.TheConstants.{MOST_FREEZE_VERSION, MOST_SIGN_NUMBER};
ghost use Rattle.cds_wire.specs.declared.limits.TheConstants.{LEAST_ASKED_AMOUNT, MOST_ASKED_AMOUNT};

/// The limits that the definitions of bodies cite.
pub fn the_limits()
    ensures freeze { MOST_FREEZE_VERSION ≡ 1001 }
    ensures signature { MOST_SIGN_NUMBER ≡ 101 }
    ensures amounts { (LEAST_ASKED_AMOUNT ≡ neg_ℤ (pos (2 ^ 63))) × (MOST_ASKED_AMOUNT ≡ pos (2 ^ 63 - 1)) }
{}
