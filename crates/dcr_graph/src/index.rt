ghost use Rattle.std.specs.Prelude.{◌≡◌, ◌<◌, ◌≤◌, ℕ, List, [], length, vec_len, map, IfOk, OnOk};
ghost use Rattle.std.specs.List.{All};
ghost use Rattle.dcr_graph.specs.IndexModel.{place_among, number_at, with_number, HasNumbers, HasPlaces};

use dcr_set::NoMemory;
use std::alloc::Global;
use std::collections::BTreeMap;
use std::hash::{FoldHasher, Hasher};
use std::marker::Model;
use std::mem::swap;

// So many hashes are tried at most.
const HASHES: usize = 8;

// Where no place holds more texts than these, no further hash is tried.
const FEW: usize = 8;

/// Texts with their numbers, from 0 on, so that one is found without a walk over all of them. A text's hash
/// tells its place, and the texts of a place stand in an ordered map. The hash is the first of 8 under which no
/// place holds more than 8 texts, or else the one whose fullest place holds the fewest, so that a look-up
/// hashes the text and mostly compares one with it; with texts that were computed to crowd a place under each of
/// the 8, it compares a logarithm of their number at the very worst. Contracts see the texts.
#[derive(Drop)]
pub struct NameIndex<'n> {
    texts: Vec<&'n [u8]>,
    // What the hash of a text goes on from.
    start: FoldHasher,
    places: Vec<BTreeMap<&'n [u8], u16>>,
}

impl<'n> Model for NameIndex<'n> {
    ghost use Rattle.std.specs.Prelude.{List, ℕ};

    ghost Value = { List (List ℕ) };

    ghost use Rattle.dcr_graph.specs.IndexModel.{texts_of, IsIndex};

    ghost view = { texts_of };

    ghost invariant = { IsIndex };
}

impl<'n> NameIndex<'n> {
    ghost use Rattle.std.specs.Prelude.{◌≡◌, ◌≤◌, length, vec_len, map, IfOk};
    ghost use Rattle.dcr_graph.specs.Names.{number_of};

    /// Of these texts, of which some may be one. `NoMemory` where memory could not be had.
    pub fn new(alloc: Global, texts: Vec<&'n [u8]>) -> Result<NameIndex<'n>, NoMemory>
        requires { vec_len texts ≤ 2048 }
        ensures { IfOk result (λ index. index ≡ map (λ text. text.now) texts.entry.items) }
    {
        let (start, places) = spread(alloc, &texts)?;
        Ok(NameIndex {
            texts,
            start,
            places,
        })
    }

    /// How many texts there are.
    pub fn len(&self) -> u16
        ensures { result ≡ length self.now }
    {
        self.texts.len() as u16
    }

    /// The number of the first text that is this one. None exactly where none is.
    pub fn find(&self, text: &[u8]) -> Option<u16>
        ensures { result ≡ number_of self.now text.now }
    {
        let place = place_of(self.start, text, self.places.len());
        self.places[place].get(text).copied()
    }
}

// The hash to take, and the maps that it gives. It decides what a look-up costs, and no number.
fn spread<'n>(
    alloc: Global,
    texts: &[&'n [u8]],
) -> Result<(FoldHasher, Vec<BTreeMap<&'n [u8], u16>>), NoMemory>
    requires { length texts.now ≤ 2048 }
    ensures { IfOk result (λ found. HasPlaces found.0 found.1.items (map (λ text. text.now) texts.now)) }
{
    let mut start = FoldHasher::default();
    let mut best = start;
    let mut places = read_places(alloc, start, texts)?;
    let mut tried = 1;
    while tried < HASHES && fullest(&places) > FEW {
        start.write(b"next");
        let mut others = read_places(alloc, start, texts)?;
        if fullest(&others) < fullest(&places) {
            best = start;
            swap(&mut places, &mut others);
        }
        tried += 1;
    }
    Ok((best, places))
}

// How many texts stand at the fullest place.
fn fullest(places: &[BTreeMap<&[u8], u16>]) -> usize {
    let mut most = 0;
    for numbers in places {
        most = numbers.len().max(most);
    }
    most
}

// A map for each place, with the numbers of the texts that belong there.
fn read_places<'n>(
    alloc: Global,
    start: FoldHasher,
    texts: &[&'n [u8]],
) -> Result<Vec<BTreeMap<&'n [u8], u16>>, NoMemory>
    requires { length texts.now ≤ 2048 }
    ensures { IfOk result (λ places. HasPlaces start places.items (map (λ text. text.now) texts.now)) }
{
    let count = texts.len().max(1);
    let mut places = empty_places(alloc, count)?;
    for i in 0..texts.len() {
        let text = texts[i];
        put(&mut places[place_of(start, text, count)], text, i as u16)?;
    }
    Ok(places)
}

// So many empty maps.
fn empty_places<'n>(alloc: Global, count: usize) -> Result<Vec<BTreeMap<&'n [u8], u16>>, NoMemory>
    ensures len { IfOk result (λ places. vec_len places ≡ count) }
    ensures empty { IfOk result (λ places. All (λ map. map.entries ≡ []) places.items) }
{
    let mut places = Vec::with_capacity(alloc, count)?;
    for _ in 0..count {
        places.push(BTreeMap::new(alloc))?;
    }
    Ok(places)
}

// Gives a text its number, where it has none.
fn put<'n>(map: &mut BTreeMap<&'n [u8], u16>, text: &'n [u8], number: u16) -> Result<(), NoMemory>
    ensures { OnOk result ((other : List ℕ) → number_at map.new other ≡ with_number (number_at map.old other) text.now number other) }
{
    if !map.contains_key(text) {
        map.insert(text, number)?;
    }
    Ok(())
}

// The place of a text among so many.
#[tactic(auto, unfolding(crate::specs::IndexModel::place_among))]
fn place_of(start: FoldHasher, text: &[u8], places: usize) -> usize
    requires { 0 < places }
    ensures place { result ≡ place_among places start text.now }
    ensures within { result < places }
{
    let mut hasher = start;
    hasher.write(text);
    (hasher.finish() % (places as u64)) as usize
}
