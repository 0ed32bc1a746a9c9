//! What a room's name stands for.

ghost use Rattle.std.specs.Prelude.{ℕ, List, [], Bool, false};
ghost use Rattle.logbook.specs.Pages.{Book};

use std::marker::{Brand, PhantomData};

/// The name of one room. It stands in the types of the room, its sessions and its fronts, so that what one
/// call takes belongs together. It has no calls: the caller who opens the room picks it, as `Brand`,
/// and says of which histories, opening content and journal's limit it is the name, and whether checkpoints are made.
pub trait RoomName<C> {
    // The history of what is published, and the history of what is entered.
    ghost book: { Book × Book };

    // The opening content alone.
    ghost opening: { List C };

    // How many entries the journal may hold.
    ghost limit: { ℕ };

    // Whether the room's owner makes checkpoints. If not, the limit bounds all entries of the room.
    ghost renews: { Bool };
}

impl<C> RoomName<C> for Brand {
    ghost book = { (record { number = 0; log_name = 0; cells_name = 0 }, record { number = 0; log_name = 0; cells_name = 0 }) };

    ghost opening = { [] };

    ghost limit = { 0 };

    ghost renews = { false };
}

/// The name of the history of what is entered in a room, where a trail over it is named.
pub struct JournalOf<N> {
    of: PhantomData<N>,
}

impl<C, N: RoomName<C>> RoomName<C> for JournalOf<N> {
    ghost book = { (N.book.1, N.book.1) };

    ghost opening = { N.opening };

    ghost limit = { N.limit };

    ghost renews = { N.renews };
}
