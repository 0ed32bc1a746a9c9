//! Boards as states that take edits.

ghost use Rattle.cq_board.specs.Edits.{why, pool_after};
ghost use Rattle.cq_board.specs.Steps.Laws.{refused_keeps};

use crate::board::Board;
use crate::edit::Why;
use crate::work::Work;
use cq_atom::Edit;
use cq_desk::{Live, NoMemory};
use std::alloc::Allocator;

impl<A: Allocator + Copy> Live for Board<A> {
    type Edit = Edit<A>;

    type Why = Why;
    // Contracts see a board as its pool.
    type Content = Board;

    ghost content = { λ pool. pool };

    ghost why = { why };

    ghost after = { pool_after };

    fn admit(&mut self, edit: &Edit<A>) -> Result<Option<Why>, NoMemory> {
        Ok(self.admit_counted(edit, &mut Work::new())?)
    }

    fn copy(&self) -> Result<Board<A>, NoMemory> {
        Ok(Board::copy(self)?)
    }

    fn copy_edit(edit: &Edit<A>) -> Result<Edit<A>, NoMemory> {
        Ok(edit.copy()?)
    }

    ghost refused = { refused_keeps };
}
