//! The laws on which a naming rests. Each is proved by its contract, and its body does nothing.
ghost use Rattle.std.specs.Prelude.{◌≡◌, ◌^◌, ℕ, List};
ghost use Rattle.cds_base.specs.declared.Window.{Window};
ghost use Rattle.cds_names.specs.declared.names.TheConstants.{NUMBER_LIMIT};
ghost use Rattle.cds_names.specs.Naming.{TheNaming};

/// Whatever the windows and the times are, there is exactly one naming that no wanted pair blocks.
pub fn there_is_exactly_one_naming()
    ensures { (windows : List Window) (times : List ℕ) → TheNaming windows times }
{}

/// The limit that definitions cite: of the numbers of components and peaks.
pub fn the_limits()
    ensures numbers { NUMBER_LIMIT ≡ 2 ^ 32 }
{}
