//! How many edges to a postcondition are a crowd.

ghost use Rattle.std.specs.Prelude.{◌≡◌};
ghost use Rattle.cq_match.specs.Graph.{is_crowd};

/// Whether a postcondition with that many providers is crowded: two or more are a crowd.
pub fn is_crowd(providers: usize) -> bool
    ensures { result ≡ is_crowd providers }
{
    providers >= 2
}
