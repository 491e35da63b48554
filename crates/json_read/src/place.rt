//! Where a number stands among the numbers of a file's dictionaries.

ghost use Rattle.std.specs.Prelude.{◌≡◌, ◌+◌, ◌<◌, length, IfOk, IfErr, OnOk};
ghost use Rattle.json_read.specs.PlaceParts.{ArePlaces, next_place, place_at};
ghost use Rattle.json_base.specs.FaultAt.{no_memory};

use json_base::JsonFault;
use std::alloc::Global;
use std::collections::BTreeMap;

/// Where a number stands among numbers.
#[derive(Clone, Copy)]
pub enum Place {
    Nowhere,
    At(usize),
    /// It stands at two places or more, of which this is the second.
    Again(usize),
}

/// Where the number stands.
pub fn place_of(places: &BTreeMap<i128, Place>, id: i128) -> Place
    ensures { result ≡ place_at places.now id }
{
    match places.get(&id) {
        Some(place) => *place,
        None => Place::Nowhere,
    }
}

/// The place of a number that stands at this index too.
fn next_place(place: Place, index: usize) -> Place
    ensures { result ≡ next_place index place }
{
    match place {
        Place::Nowhere => Place::At(index),
        Place::At(_) => Place::Again(index),
        Place::Again(second) => Place::Again(second),
    }
}

/// Adds the place of the number of this index to those before it.
fn add_place(
    alloc: Global,
    places: &mut BTreeMap<i128, Place>,
    ids: &[i128],
    index: usize,
) -> Result<(), JsonFault>
    requires within { index < length ids.now }
    requires before { ArePlaces ids.now index places.old }
    ensures ok { OnOk result (ArePlaces ids.now (index + 1) places.new) }
    ensures err { IfErr result (λ fault. fault ≡ no_memory) }
{
    let id = ids[index];
    let place = next_place(place_of(places, id), index);
    match places.insert(id, place) {
        Ok(_) => Ok(()),
        Err(_) => Err(JsonFault::no_memory(alloc)),
    }
}

/// Where each number stands. The one error is that memory is wanting.
pub fn places_of(alloc: Global, ids: &[i128]) -> Result<BTreeMap<i128, Place>, JsonFault>
    ensures ok { IfOk result (ArePlaces ids.now (length ids.now)) }
    ensures err { IfErr result (λ fault. fault ≡ no_memory) }
{
    let mut places = BTreeMap::new(alloc);
    for index in 0..ids.len() {
        add_place(alloc, &mut places, ids, index)?;
    }
    Ok(places)
}
