//! Offers: the groundings of pending queries.

ghost use Rattle.std.specs.Prelude.{◌≡◌, ◌++◌, ◌∷◌, [], map, IfOk, OnOk};
ghost use Rattle.cq_choose.specs.Steps.Offers.{offer_of, offers_by, offers_at, offers_from, offers_of, choice_of, choices_of};

use crate::reach::is_spare;
use cq_atom::{Name, Query, Value};
use cq_board::{Board, Choice};
use cq_ground::Groundings;
use std::alloc::{AllocError, Allocator};

/// A pending query, by its name and by its place in posting order, and a grounding of it.
#[derive(Drop)]
pub(crate) struct Offer<'b, A: Allocator> {
    pub(crate) name: &'b Name<A>,
    pub(crate) place: usize,
    pub(crate) query: &'b Query<A>,
    pub(crate) values: &'b [Value<A>],
}

/// Adds an offer for each of the query's groundings.
fn add_groundings<'b, A: Allocator>(
    offers: &mut Vec<Offer<'b, A>, A>,
    name: &'b Name<A>,
    place: usize,
    query: &'b Query<A>,
    groundings: &'b Groundings<A>,
) -> Result<(), AllocError>
    ensures { OnOk result (map offer_of offers.new.items ≡ map offer_of offers.old.items ++ offers_by place name.now (Some query.now) (Some groundings.now)) }
{
    for values in groundings.list() {
        offers.push(Offer {
            name,
            place,
            query,
            values,
        })?;
    }
    Ok(())
}

/// Adds the offers of the query of that name, which has that place, if it is taken.
fn add_offers<'b, A: Allocator + Copy>(
    offers: &mut Vec<Offer<'b, A>, A>,
    board: &'b Board<A>,
    spare: &[bool],
    name: &'b Name<A>,
    place: usize,
) -> Result<(), AllocError>
    ensures { OnOk result (map offer_of offers.new.items ≡ map offer_of offers.old.items ++ offers_at board.now spare.now place name.now) }
{
    if is_spare(spare, place) {
        return Ok(());
    }
    match board.view(name) {
        Some(view) => {
            if view.matched {
                add_groundings(offers, name, place, view.query, view.groundings)
            } else {
                Ok(())
            }
        }
        None => Ok(()),
    }
}

/// The offers of the queries of these names, in their order.
fn offers_named<'b, A: Allocator + Copy>(
    alloc: A,
    board: &'b Board<A>,
    spare: &[bool],
    names: &[&'b Name<A>],
) -> Result<Vec<Offer<'b, A>, A>, AllocError>
    ensures { IfOk result (λ offers. map offer_of offers.items ≡ offers_from board.now spare.now 0 (map (λ name. name.now) names.now)) }
{
    let mut offers = Vec::new(alloc);
    for (place, name) in names.iter().enumerate() {
        add_offers(&mut offers, board, spare, name, place)?;
    }
    Ok(offers)
}

/// The offers of the matched queries whose flags are not set, in posting order.
pub(crate) fn offers_of<'b, A: Allocator + Copy>(
    alloc: A,
    board: &'b Board<A>,
    spare: &[bool],
) -> Result<Vec<Offer<'b, A>, A>, AllocError>
    ensures { IfOk result (λ offers. map offer_of offers.items ≡ offers_of board.now spare.now) }
{
    let names = board.names()?;
    offers_named(alloc, board, spare, &names)
}

/// Equal values.
fn copy_of<A: Allocator + Copy>(
    alloc: A,
    values: &[Value<A>],
) -> Result<Vec<Value<A>, A>, AllocError>
    ensures { IfOk result (λ copy. copy.items ≡ values.now) }
{
    let mut copy = Vec::with_capacity(alloc, values.len())?;
    for value in values {
        copy.push(value.copy()?)?;
    }
    Ok(copy)
}

/// What is chosen by the offer.
fn choice_of<A: Allocator + Copy>(alloc: A, offer: &Offer<'_, A>) -> Result<Choice<A>, AllocError>
    ensures { IfOk result (λ choice. choice ≡ choice_of (offer_of offer.now)) }
{
    let values = copy_of(alloc, offer.values)?;
    let name = offer.name.copy()?;
    Ok(Choice { name, values })
}

/// Adds what is chosen by the offer of that number, where there is one.
fn add_choice<A: Allocator + Copy>(
    alloc: A,
    choices: &mut Vec<Choice<A>, A>,
    offers: &[Offer<'_, A>],
    number: usize,
) -> Result<(), AllocError>
    ensures { OnOk result (choices.new.items ≡ choices.old.items ++ choices_of (map offer_of offers.now) (number ∷ [])) }
{
    if let Some(offer) = offers.get(number) {
        choices.push(choice_of(alloc, offer)?)?;
    }
    Ok(())
}

/// What is chosen by the offers of these numbers.
pub(crate) fn choices_of<A: Allocator + Copy>(
    alloc: A,
    offers: &[Offer<'_, A>],
    chosen: &[usize],
) -> Result<Vec<Choice<A>, A>, AllocError>
    ensures { IfOk result (λ choices. choices.items ≡ choices_of (map offer_of offers.now) chosen.now) }
{
    let mut choices = Vec::with_capacity(alloc, chosen.len())?;
    for number in chosen {
        add_choice(alloc, &mut choices, offers, *number)?;
    }
    Ok(choices)
}
