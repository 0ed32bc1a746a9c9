//! Which queries are drawn.

ghost use Rattle.std.specs.Prelude.{◌≡◌};
ghost use Rattle.cq_render.specs.Graph.{is_drawn};

use cq_closure::is_set;

/// The queries of a board that its graph has.
#[derive(Clone, Copy)]
pub enum Drawn<'f> {
    /// All of them.
    All,
    /// Those that have a flag, by their numbers in posting order.
    Flagged(&'f [bool]),
}

impl Drawn<'_> {
    /// Whether the query of that number is drawn.
    pub fn has(self, number: usize) -> bool
        ensures { result ≡ is_drawn self.entry number }
    {
        match self {
            Drawn::All => true,
            Drawn::Flagged(flags) => is_set(flags, number),
        }
    }
}
