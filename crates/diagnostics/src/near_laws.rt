//! Examples of names that are meant.

ghost use Rattle.std.specs.Prelude.{◌≡◌, [], ◌∷◌, codes};
ghost use Rattle.diagnostics.specs.Near.{nearest_of};

/// Two slips of one letter, of which the first is in another case; and a name that is too far from the only candidate
/// that differs from it.
pub fn slips_are_seen()
    ensures nearest { nearest_of (codes "ontable") (codes "stable" ∷ codes "On-Table" ∷ codes "notable" ∷ []) ≡ 1 ∷ 2 ∷ [] }
    ensures none { nearest_of (codes "road") (codes "road" ∷ codes "route" ∷ []) ≡ [] }
{}
