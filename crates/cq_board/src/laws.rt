//! Laws of the definitions: of all records, so there is nothing to do.

ghost use Rattle.std.specs.Prelude.{◌≡◌, ◌↔◌, fold, IsTrue};
ghost use Rattle.cq_atom.specs.Atom.{AtomRecord};
ghost use Rattle.cq_atom.specs.Unify.{Unify};
ghost use Rattle.cq_board.specs.Steps.Supply.{unifies};
ghost use Rattle.cq_desk.specs.Replies.{AreAccepted};
ghost use Rattle.cq_board.specs.Pool.{PoolRecord, IsPool, opening_pool};
ghost use Rattle.cq_board.specs.Content.{content_edits};
ghost use Rattle.cq_atom.specs.Edit.{Edit};
ghost use Rattle.cq_board.specs.Edits.{why, pool_after};

/// The test by which edges are defined is true exactly where two atoms unify, whatever the atoms.
pub fn unifies_is_unify()
    ensures { (a b : AtomRecord) → IsTrue (unifies a b) ↔ Unify a b }
{}

/// The pool after an edit of a good pool is good, whether or not the edit is refused.
pub fn pools_stay_good()
    ensures { (pool : PoolRecord) (edit : Edit) → IsPool pool → IsPool (pool_after pool edit) }
{}

/// A good pool is made again over its catalog and limits by its rows in their order and then its
/// queries in posting order: no edit of these is refused.
pub fn pools_are_their_content()
    ensures accepted { (pool : PoolRecord) → IsPool pool → AreAccepted pool_after why (opening_pool pool.tables.catalog pool.limits) (content_edits pool) }
    ensures same { (pool : PoolRecord) → IsPool pool → fold pool_after (opening_pool pool.tables.catalog pool.limits) (content_edits pool) ≡ pool }
{}
