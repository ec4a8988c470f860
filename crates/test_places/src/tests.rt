//! Places of a pool that are used and given back, and places beside plain lists of their uses.
use rad_places::Places;
use std::alloc::{AllocError, Global};
use std::process::Abort;

// Asserts once, of `what`.
fn holds(rt: &impl Abort, is_so: bool, what: &str) {
    assert!(rt; is_so, "{what}");
}

/// More addresses than one word of the summary is for.
const COUNT: u32 = 4_200;

/// 10.0.0.250
const FIRST: u32 = 0x0a00_00fa;

#[test]
fn addresses_are_free_from_the_least_on(rt: HostRuntime) {
    let places = Places::open(rt.alloc(), FIRST, COUNT);
    let is_so = match places {
        Ok(mut places) => takes_all(&mut places) && gives_back(&mut places),
        Err(AllocError) => true,
    };
    holds(&rt, is_so, "the least free one each time");
}

// Whether each place is the least free one in its turn, and none once all are in use.
fn takes_all(places: &mut Places) -> bool {
    for expected in 0..COUNT as usize {
        if places.least_free() != Some(expected) || !uses_once_more(places, expected) {
            return false;
        }
    }
    places.least_free().is_none()
}

fn uses_once_more(places: &mut Places, place: usize) -> bool {
    if places.len() <= place || places.uses(place) == u64::MAX {
        return false;
    }
    places.add_use(place);
    true
}

fn uses_once_less(places: &mut Places, place: usize) -> bool {
    if places.len() <= place {
        return false;
    }
    places.remove_use(place);
    true
}

// Whether places are free again, each once its last use is over.
fn gives_back(places: &mut Places) -> bool {
    for place in [4_199, 4_096, 64, 63, 0].iter() {
        if !is_given_back(places, *place) {
            return false;
        }
    }
    true
}

fn is_given_back(places: &mut Places, place: usize) -> bool {
    let is_lessened = uses_once_more(places, place) && uses_once_less(places, place);
    let is_in_use = places.least_free() != Some(place);
    is_lessened && is_in_use && uses_once_less(places, place) && places.least_free() == Some(place)
}

/// Uses and notes beside plain lists of them.
#[derive(Drop)]
struct Pair {
    places: Places,
    uses: Vec<u64>,
    notes: Vec<u64>,
}

#[test]
fn places_do_what_plain_lists_do(rt: HostRuntime) {
    let agree = match open(rt.alloc(), 200) {
        Ok(mut pair) => agree_for(&mut pair, 20_000),
        Err(AllocError) => true,
    };
    holds(&rt, agree, "each call answers as on plain lists");
}

fn open(alloc: Global, count: u32) -> Result<Pair, AllocError> {
    let places = Places::open(alloc, FIRST, count)?;
    let uses = vec![in alloc; 0; count as usize]?;
    let notes = vec![in alloc; 0; count as usize]?;
    Ok(Pair {
        places,
        uses,
        notes,
    })
}

// Whether so many random calls answer as on plain lists, and a copy at the end has the same.
fn agree_for(pair: &mut Pair, calls: u64) -> bool {
    let mut draw: u64 = 1;
    for _ in 0..calls {
        draw = draw
            .wrapping_mul(6_364_136_223_846_793_005)
            .wrapping_add(1_442_695_040_888_963_407);
        let address = FIRST - 4 + (draw >> 40) as u32 % 208;
        if !call(pair, (draw >> 60) as u32, address) || !has_same(&pair.places, pair) {
            return false;
        }
    }
    match pair.places.copy() {
        Ok(copy) => has_same(&copy, pair),
        Err(AllocError) => true,
    }
}

// Makes the call that is drawn for an address, on its place in both, if it has one in both.
fn call(pair: &mut Pair, draw: u32, address: u32) -> bool {
    let place = pair.places.place_of(address);
    let is_inside = FIRST <= address && address < FIRST + 200;
    match place {
        Some(place) => is_inside && place < pair.uses.len() && change(pair, draw, place),
        None => !is_inside,
    }
}

fn change(pair: &mut Pair, draw: u32, place: usize) -> bool {
    if pair.places.len() <= place || pair.uses.len() <= place || pair.notes.len() <= place {
        return false;
    }
    match draw {
        0..7 => {
            pair.uses[place] = pair.uses[place].saturating_add(1);
            uses_once_more(&mut pair.places, place)
        }
        7..14 => {
            pair.uses[place] = pair.uses[place].saturating_sub(1);
            uses_once_less(&mut pair.places, place)
        }
        _ => {
            pair.notes[place] = draw as u64;
            pair.places.set_note(place, draw as u64);
            true
        }
    }
}

fn has_same(places: &Places, pair: &Pair) -> bool {
    places.first() == FIRST
        && places.least_free() == pair.uses.iter().position(|uses| *uses == 0)
        && (0..places.len()).all(|place| {
            pair.uses.get(place) == Some(&places.uses(place))
                && pair.notes.get(place) == Some(&places.note(place))
        })
}
