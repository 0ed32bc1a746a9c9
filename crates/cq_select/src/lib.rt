//! A choice of members that supplies what is wanted and what its own members need.
//!
//! A [`Member`] belongs to an owner and needs atoms, and an atom is supplied by members ([`Supply`]). A list of members is a
//! selection for some wanted atoms where no two have one owner, and each atom that is wanted, or that one of them needs, is
//! supplied by one of them (`specs/Selection`). An owner may stand for an entangled query, a member for one of its groundings,
//! an atom for a ground atom, and a selection for a coordinating choice.
//!
//! The public call is [`select`]: it finds a selection, or that there is none, within a budget of steps. It chooses a member
//! for one need after the other (`asked`, `choosing`), and goes back to a choice that has a part in the failure, past
//! those that have none (`retreat`). A member that no selection has is marked, and passed over from then on.
//!
//! What the search learns it says of members, and not of where it stands (`specs/Steps/Facts`): that no selection has a member
//! beside all of some others. Such a fact, once proved, holds whatever is chosen later.
//!
//! Not here: what owners, members and atoms are.
#![tactic(auto)]

mod asked;
mod choosing;
mod retreat;
mod search;
mod supply;
mod trail;

pub use search::{Search, Selected, select};
pub use supply::{Member, Supply};
