//! Members, and who supplies what.

ghost use Rattle.std.specs.Prelude.{◌≡◌, ◌<◌, ◌≤◌, IfSome, IfNone};
ghost use Rattle.cq_select.specs.Selection.{member_count, owner_of, needs_of, suppliers_of};

use std::alloc::{Allocator, Global};

/// One who may be chosen.
#[derive(Drop)]
pub struct Member<A: Allocator = Global> {
    /// Of the members of one owner at most one is chosen. Any number.
    pub owner: usize,
    /// The atoms that have to be supplied where it is chosen.
    pub needs: Vec<usize, A>,
}

/// Who may be chosen, and who supplies which atom. Members and atoms are numbered from 0, by their places.
#[derive(Drop)]
pub struct Supply<A: Allocator = Global> {
    /// The members.
    pub members: Vec<Member<A>, A>,
    /// For each atom the members that supply it, in the order in which they are tried. An atom past the end is supplied by nobody, and a
    /// number that is no member's is passed over.
    pub suppliers: Vec<Vec<usize, A>, A>,
}

/// The member's owner, where there is such a member.
pub fn owner_of<A: Allocator>(supply: &Supply<A>, member: usize) -> Option<usize>
    ensures known { IfSome result (λ owner. owner ≡ owner_of supply.now member) }
    ensures within { IfSome result (λ _. member < member_count supply.now) }
    ensures none { IfNone result (member_count supply.now ≤ member) }
{
    match supply.members.get(member) {
        Some(member) => Some(member.owner),
        None => None,
    }
}

/// The atoms that the member needs.
pub fn needs_of<A: Allocator>(supply: &Supply<A>, member: usize) -> &[usize]
    ensures { result.now ≡ needs_of supply.now member }
{
    match supply.members.get(member) {
        Some(member) => &member.needs,
        None => &[],
    }
}

/// The members that supply the atom.
pub fn suppliers_of<A: Allocator>(supply: &Supply<A>, atom: usize) -> &[usize]
    ensures { result.now ≡ suppliers_of supply.now atom }
{
    match supply.suppliers.get(atom) {
        Some(suppliers) => suppliers,
        None => &[],
    }
}
