ghost use Rattle.std.specs.Prelude.{ℕ, List};
ghost use Rattle.listing_laws.specs.Ways.{Ways};
ghost use Rattle.listing_laws.specs.Listings.{Edge};

/// A search as the laws of this crate see it: its configurations, its branches, and its ways. The other members stand for
/// whatever a law speaks of, so that each law is proved of all such properties.
pub trait Searched {
    type Configuration;

    type Branch;

    ghost ways: { Ways Self.Configuration Self.Branch };

    ghost IsWanted: { List Self.Branch → Type 0 };

    ghost IsLeft: { Self.Branch → Type 0 };

    ghost IsLeftThen: { Self.Branch → Type 0 };

    ghost IsKept: { Self.Configuration → Self.Branch → Type 0 };
}
