//! The commitments in order, each as the place at which it stands.
ghost use Rattle.std.specs.Prelude.{◌≡◌, ◌≤◌, ◌<◌, ◌+◌, ◌-◌, ◌^◌, ℕ, length, true, false, vec_len, vec_capacity, IsOk};
ghost use Rattle.std.specs.Prelude.{IfOk, OnOk, OnErr, slice_index, slice_index_or};
ghost use Rattle.std.specs.List.Sorted.{IsPermutation};
ghost use Rattle.std.specs.Ordering.{is_lt, is_gt};
ghost use Rattle.ots_store.specs.Index.{least};
ghost use Rattle.ots_store.specs.Places.{Indexes, Are, IsParted, Exchanged, IsWithin, Rises, key_at, key_cmp, nothing};

use ots_base::OutOfMemory;
use std::alloc::Global;
use std::cmp::Ordering;

/// The places of commitments, four bytes each, in the order of the commitments. Among equal ones
/// the places rise, so the first of them is the least index.
#[derive(Drop)]
pub struct Index {
    places: Vec<u32>,
}

impl Index {
    /// All of these commitments. If they rise or fall already, they are seen in one pass.
    pub fn of(alloc: Global, all: &[[u8; 44]]) -> Result<Index, OutOfMemory>
        requires { length all.now ≤ 2 ^ 32 }
        ensures { IfOk result (λ index. Indexes (length all.now) index.places.items all.now) }
    {
        let mut places = in_turn(alloc, all.len())?;
        places.sort_unstable_by(|a, b| order(all, *a, *b));
        Ok(Index { places })
    }

    /// The least index of a commitment.
    pub fn find(&self, all: &[[u8; 44]], commitment: &[u8; 44]) -> Option<u64>
        requires { Indexes (length all.now) self.now.places.items all.now }
        ensures { result ≡ least commitment.now all.now }
    {
        let at = first_from(&self.places, all, commitment, 0);
        if at < self.places.len() {
            let place = self.places[at];
            if all[place as usize] == *commitment {
                return Some(place as u64);
            }
        }
        None
    }

    /// Takes the memory for some places more.
    pub fn reserve(&mut self, more: usize) -> Result<(), OutOfMemory>
        ensures items { self.new.places.items ≡ self.old.places.items }
        ensures capacity { vec_capacity self.old.places ≤ vec_capacity self.new.places }
        ensures ok { OnOk result (vec_len self.old.places + more ≤ vec_capacity self.new.places) }
        ensures enough { vec_len self.old.places + more ≤ vec_capacity self.old.places → IsOk result }
    {
        self.places.reserve(more)?;
        Ok(())
    }

    /// Adds the commitments after those that are indexed. It takes no memory.
    pub fn catch_up(&mut self, all: &[[u8; 44]])
        requires few { length all.now ≤ 2 ^ 32 }
        requires room { length all.now ≤ vec_capacity self.old.places }
        requires before { vec_len self.old.places ≤ length all.now }
        requires indexes { Indexes (vec_len self.old.places) self.old.places.items all.now }
        ensures indexes { Indexes (length all.now) self.new.places.items all.now }
        ensures capacity { vec_capacity self.old.places ≤ vec_capacity self.new.places }
    {
        let indexed = self.places.len();
        for place in indexed..all.len() {
            // There is room.
            let _ = self.places.push(place as u32);
        }
        let places = self.places.as_mut_slice();
        sort_after(places, all, indexed);
        merge(places, all, indexed);
    }
}

/// So many places, in turn.
fn in_turn(alloc: Global, count: usize) -> Result<Vec<u32>, OutOfMemory>
    requires { count ≤ 2 ^ 32 }
    ensures count { IfOk result (λ places. vec_len places ≡ count) }
    ensures each { IfOk result (λ places. (j : ℕ) → j < count → slice_index places.items j ≡ j) }
{
    let mut places = Vec::with_capacity(alloc, count)?;
    for place in 0..count {
        places.push(place as u32)?;
    }
    Ok(places)
}

/// Sorts the places from one on.
fn sort_after(places: &mut [u32], all: &[[u8; 44]], from: usize)
    requires { from ≤ length places.old }
    ensures moves { IsPermutation places.old places.new }
    ensures prefix { (i : ℕ) → i < from → slice_index places.new i ≡ slice_index places.old i }
    ensures after { (i j : ℕ) → from ≤ i → i ≤ j → j < length places.old
        → is_gt (key_cmp (key_at all.now (slice_index places.new i)) (key_at all.now (slice_index places.new j)))
        ≡ false }
{
    places[from..].sort_unstable_by(|a, b| order(all, *a, *b));
}

/// Merges the places from one on with those before it, the last of them first: so each of the others
/// is moved once, whatever their number.
fn merge(places: &mut [u32], all: &[[u8; 44]], from: usize)
    requires from { from ≤ length places.old }
    requires are { Are (length places.old) places.old }
    requires few { length places.old ≤ length all.now }
    requires parted { IsParted from (length places.old - from) places.old all.now }
    ensures { Indexes (length places.old) places.new all.now }
{
    let mut high = from;
    let mut left = places.len() - from;
    while left > 0 {
        high = sink(places, all, high, left);
        left -= 1;
    }
}

/// Moves the `left` places from `high` on before those before them that are after the last one,
/// which then stands where it belongs. It answers where they begin.
fn sink(places: &mut [u32], all: &[[u8; 44]], high: usize, left: usize) -> usize
    requires some { 0 < left }
    requires there { high + left ≤ length places.old }
    requires within { IsWithin (length all.now) places.old }
    requires parted { IsParted high left places.old all.now }
    ensures moves { IsPermutation places.old places.new }
    ensures bound { result ≤ high }
    ensures parted { IsParted result (left - 1) places.new all.now }
{
    let place = places[high + left - 1];
    let at = first_from(&places[..high], all, &all[place as usize], place);
    exchange(places, at, high, high + left);
    at
}

/// Exchanges what stands from `low` up to `middle` and from there up to `high`.
fn exchange(places: &mut [u32], low: usize, middle: usize, high: usize)
    requires low { low ≤ middle }
    requires middle { middle ≤ high }
    requires high { high ≤ length places.old }
    ensures moves { IsPermutation places.old places.new }
    ensures are { Exchanged low middle high places.old places.new }
{
    places[low..high].rotate_left(middle - low);
}

/// Where the first place stands that is not before this one of a commitment.
fn first_from(places: &[u32], all: &[[u8; 44]], commitment: &[u8; 44], place: u32) -> usize
    requires within { IsWithin (length all.now) places.now }
    requires rises { Rises places.now all.now }
    ensures bound { result ≤ length places.now }
    ensures before { (j : ℕ) → j < result
        → is_lt (key_cmp (key_at all.now (slice_index places.now j)) (commitment.now, place)) ≡ true }
    ensures after { (j : ℕ) → result ≤ j → j < length places.now
        → is_lt (key_cmp (key_at all.now (slice_index places.now j)) (commitment.now, place)) ≡ false }
{
    let mut low = 0;
    let mut high = places.len();
    while low < high {
        let middle = low + (high - low) / 2;
        if is_before(all, places[middle], commitment, place) {
            low = middle + 1;
        } else {
            high = middle;
        }
    }
    low
}

/// Whether a place is before another one, of a commitment that may be any.
fn is_before(all: &[[u8; 44]], place: u32, commitment: &[u8; 44], other: u32) -> bool
    requires { place < length all.now }
    ensures { result ≡ is_lt (key_cmp (key_at all.now place) (commitment.now, other)) }
{
    all[place as usize]
        .cmp(commitment)
        .then(place.cmp(&other))
        .is_lt()
}

/// The order of two places.
fn order(all: &[[u8; 44]], a: u32, b: u32) -> Ordering
    ensures { result ≡ key_cmp (key_at all.now a) (key_at all.now b) }
{
    commitment_at(all, a)
        .cmp(commitment_at(all, b))
        .then(a.cmp(&b))
}

/// What stands at a place that is none.
static NOTHING: [u8; 44] = [0; 44];

fn commitment_at(all: &[[u8; 44]], place: u32) -> &[u8; 44]
    ensures { result.now ≡ slice_index_or all.now place nothing }
{
    match all.get(place as usize) {
        Some(commitment) => commitment,
        None => &NOTHING,
    }
}
