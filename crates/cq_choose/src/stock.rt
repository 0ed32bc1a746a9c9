//! Goods by numbers, and who offers each.

ghost use Rattle.std.specs.Prelude.{◌≡◌, map, IfOk, OnOk};
ghost use Rattle.cq_atom.specs.Valuation.{under};
ghost use Rattle.cq_board.specs.Choice.{bound};
ghost use Rattle.cq_choose.specs.Steps.Offers.{offer_of, head_goods, goods_of};
ghost use Rattle.cq_choose.specs.Steps.Stocks.{stock_of, number_in, with_good, noted, with_supplier, with_goods, stocked, needs_in};

use crate::keys::{Good, Instance, Key};
use crate::offers::Offer;
use cq_atom::{Atom, Name};
use cq_select::Member;
use indexmap::IndexSet;
use std::alloc::{AllocError, Allocator};
use std::hash::{BuildHasherDefault, FoldHasher};

/// The goods, numbered in the order in which they came, and for each of them the members that offer it.
#[derive(Drop)]
pub(crate) struct Stock<'a, A: Allocator> {
    pub(crate) goods: IndexSet<Key<'a, A>, BuildHasherDefault<FoldHasher>, A>,
    pub(crate) suppliers: Vec<Vec<usize, A>, A>,
}

/// That the query of that name is chosen for.
fn query_key<A: Allocator>(name: &Name<A>) -> Key<'_, A>
    ensures { result ≡ Good.Query name.now }
{
    Key::of(Good::Query(name))
}

/// The atom of the offer's query, under its values.
fn atom_key<'a, A: Allocator>(offer: &Offer<'a, A>, atom: &'a Atom<A>) -> Key<'a, A>
    ensures { result ≡ Good.Atom (under (bound offer.now.query.now offer.now.values.now) atom.now) }
{
    Key::of(Good::Atom(Instance {
        query: offer.query,
        values: offer.values,
        atom,
    }))
}

/// The number of the good. One that nobody offers has the number of none.
fn number_in<A: Allocator>(stock: &Stock<'_, A>, key: &Key<'_, A>) -> usize
    ensures { result ≡ number_in (stock_of stock.now) key.now }
{
    match stock.goods.get_index_of(key) {
        Some(number) => number,
        None => stock.goods.len(),
    }
}

/// The number of the good, which has a list from now on.
fn number_of<'a, A: Allocator + Copy>(
    alloc: A,
    stock: &mut Stock<'a, A>,
    key: Key<'a, A>,
) -> Result<usize, AllocError>
    ensures number { IfOk result (λ number. number ≡ number_in (stock_of stock.old) key.entry) }
    ensures stock { OnOk result (stock_of stock.new ≡ with_good (stock_of stock.old) key.entry) }
{
    let (number, is_new) = stock.goods.insert_full(key)?;
    if is_new {
        stock.suppliers.push(Vec::new(alloc))?;
    }
    Ok(number)
}

/// Notes the member in the list of that number.
fn note<A: Allocator>(
    suppliers: &mut Vec<Vec<usize, A>, A>,
    number: usize,
    member: usize,
) -> Result<(), AllocError>
    ensures { OnOk result (map (λ members. members.items) suppliers.new.items ≡ noted (map (λ members. members.items) suppliers.old.items) number member) }
{
    if let Some(members) = suppliers.get_mut(number) {
        members.push(member)?;
    }
    Ok(())
}

/// Notes that the member offers the good.
fn supply<'a, A: Allocator + Copy>(
    alloc: A,
    stock: &mut Stock<'a, A>,
    member: usize,
    key: Key<'a, A>,
) -> Result<(), AllocError>
    ensures { OnOk result (stock_of stock.new ≡ with_supplier member (stock_of stock.old) key.entry) }
{
    let number = number_of(alloc, stock, key)?;
    note(&mut stock.suppliers, number, member)
}

/// Notes that the member offers the heads of its query under its values.
fn supply_heads<'a, A: Allocator + Copy>(
    alloc: A,
    stock: &mut Stock<'a, A>,
    member: usize,
    offer: &Offer<'a, A>,
) -> Result<(), AllocError>
    ensures { OnOk result (stock_of stock.new ≡ with_goods member (stock_of stock.old) (head_goods (offer_of offer.now))) }
{
    for head in offer.query.heads() {
        supply(alloc, stock, member, atom_key(offer, head))?;
    }
    Ok(())
}

/// Notes all that the member offers.
fn supply_all<'a, A: Allocator + Copy>(
    alloc: A,
    stock: &mut Stock<'a, A>,
    member: usize,
    offer: &Offer<'a, A>,
) -> Result<(), AllocError>
    ensures { OnOk result (stock_of stock.new ≡ with_goods member (stock_of stock.old) (goods_of (offer_of offer.now))) }
{
    supply(alloc, stock, member, query_key(offer.name))?;
    supply_heads(alloc, stock, member, offer)
}

/// The stock of the offers, which are its members in their order.
pub(crate) fn stocked<'a, A: Allocator + Copy>(
    alloc: A,
    offers: &[Offer<'a, A>],
) -> Result<Stock<'a, A>, AllocError>
    ensures { IfOk result (λ stock. stock_of stock ≡ stocked (map offer_of offers.now)) }
{
    let mut stock = Stock {
        goods: IndexSet::new(alloc),
        suppliers: Vec::new(alloc),
    };
    for (member, offer) in offers.iter().enumerate() {
        supply_all(alloc, &mut stock, member, offer)?;
    }
    Ok(stock)
}

/// What the offer awaits, by numbers.
fn needs_in<A: Allocator + Copy>(
    alloc: A,
    stock: &Stock<'_, A>,
    offer: &Offer<'_, A>,
) -> Result<Vec<usize, A>, AllocError>
    ensures { IfOk result (λ needs. needs.items ≡ needs_in (stock_of stock.now) (offer_of offer.now)) }
{
    let mut needs = Vec::with_capacity(alloc, offer.query.posts().len())?;
    for post in offer.query.posts() {
        needs.push(number_in(stock, &atom_key(offer, post)))?;
    }
    Ok(needs)
}

/// A member for each offer: at most one of a query is chosen.
pub(crate) fn members_of<A: Allocator + Copy>(
    alloc: A,
    stock: &Stock<'_, A>,
    offers: &[Offer<'_, A>],
) -> Result<Vec<Member<A>, A>, AllocError>
    ensures owners { IfOk result (λ members. map (λ m. m.owner) members.items ≡ map (λ o. o.place) (map offer_of offers.now)) }
    ensures needs { IfOk result (λ members. map (λ m. m.needs.items) members.items ≡ map (needs_in (stock_of stock.now)) (map offer_of offers.now)) }
{
    let mut members = Vec::with_capacity(alloc, offers.len())?;
    for offer in offers {
        let needs = needs_in(alloc, stock, offer)?;
        members.push(Member {
            owner: offer.place,
            needs,
        })?;
    }
    Ok(members)
}

/// That the queries of these names are chosen for, by numbers.
pub(crate) fn wanted_of<A: Allocator + Copy>(
    alloc: A,
    stock: &Stock<'_, A>,
    names: &[Name<A>],
) -> Result<Vec<usize, A>, AllocError>
    ensures { IfOk result (λ wanted. wanted.items ≡ map (λ name. number_in (stock_of stock.now) (Good.Query name)) names.now) }
{
    let mut wanted = Vec::with_capacity(alloc, names.len())?;
    for name in names {
        wanted.push(number_in(stock, &query_key(name)))?;
    }
    Ok(wanted)
}
