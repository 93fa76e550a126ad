//! Laws of sequences. Each is proved by its contract, and its body does nothing.
ghost use Rattle.std.specs.Prelude.{◌≡◌, ◌-◌, ◌^◌};
ghost use Rattle.cds_sign.specs.declared.limits.TheConstants.{MOST_ROWS, MOST_STANDARDS, MOST_AMOUNTS};
ghost use Rattle.cds_sign.specs.declared.limits.TheConstants.{MOST_VERSIONS, MOST_DILUTION, MOST_EDITION, MOST_BASIS};
ghost use Rattle.cds_sign.specs.declared.limits.TheConstants.{FIRST_PRINTED, LAST_PRINTED, MOST_SIGNATURES, MOST_PRINTED_BYTES, TEXT_LIMIT};

/// The limits that definitions cite: of rows, listed sequences, amounts, versions, dilutions, editions, basis numbers,
/// signatures, of what a signature says, and of texts.
pub fn the_limits()
    ensures counts { (MOST_ROWS ≡ 200) × (MOST_STANDARDS ≡ 8) × (MOST_AMOUNTS ≡ 32) }
    ensures version { MOST_VERSIONS ≡ 1000 }
    ensures dilution { MOST_DILUTION ≡ 1000000 }
    ensures numbers { (MOST_EDITION ≡ 2 ^ 32 - 1) × (MOST_BASIS ≡ 2 ^ 63 - 1) }
    ensures signatures { (MOST_SIGNATURES ≡ 100) × (MOST_PRINTED_BYTES ≡ 64) }
    ensures printed { (FIRST_PRINTED ≡ 32) × (LAST_PRINTED ≡ 126) }
    ensures text { TEXT_LIMIT ≡ 2 ^ 32 }
{}
