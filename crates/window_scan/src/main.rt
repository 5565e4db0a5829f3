//! Runs the window against a plain scan over all entries put in, on random cases.
#![tactic(auto)]

mod model;
mod tally;

use model::Model;
use price::{Changes, ChangesThenSilence, Entry, Passed, Price, Window};
use prng::Random;
use std::alloc::{AllocError, Global};
use tally::{Outcome, Tally};

const CASES: usize = 3_000;

// How many calls a case makes, and so how many entries it can put in.
const CALLS: u32 = 24;

// What a case tries: the limit, how far apart the positions lie, and for how many entries the
// window has memory.
#[derive(Clone, Copy)]
struct Setting {
    limit: u32,
    stride: u32,
    room: u32,
}

// A price charged at random, at most three times.
fn any_price<P: Price>(random: &mut Random) -> P {
    let mut price = P::empty();
    for _ in 0..random.below(4) {
        price = price.charged(random.below(6));
    }
    price
}

// Puts an entry in, or tries to, and compares whether it was taken.
fn put_one<P: Price + PartialEq>(
    window: &mut Window<P>,
    model: &mut Model<P>,
    from: u32,
    entry: Entry<P>,
    tally: &mut Tally,
) -> Result<(), AllocError> {
    let may = model.may_put(from, entry);
    match window.put(from, entry) {
        Ok(()) => {
            tally.count(Outcome::Put, may);
            model.put(from, entry)?;
        }
        Err(back) => {
            let owed = !may || model.is_full();
            tally.count(Outcome::Returned, owed && back == entry);
        }
    }
    Ok(())
}

// Asks for the cheapest entry, and compares it with what a scan finds.
fn ask_one<P: Price + PartialEq>(
    window: &mut Window<P>,
    model: &mut Model<P>,
    from: u32,
    tally: &mut Tally,
) {
    let told = window.least(from);
    let outcome = match told {
        Ok(Some(_)) => Outcome::Told,
        Ok(None) => Outcome::Absent,
        Err(Passed) => Outcome::Passed,
    };
    tally.count(outcome, told == model.least(from));
}

// Memory for so many entries.
fn memory_for<P: Price>(heap: Global, room: u32) -> Result<Vec<Entry<P>>, AllocError> {
    let blank = Entry {
        position: 0,
        place: 0,
        price: P::empty(),
    };
    vec![in heap; blank; room as usize]
}

// One case: calls at random, from late positions to early ones, now and then a step back.
fn run_case<P: Price + PartialEq>(
    heap: Global,
    random: &mut Random,
    setting: Setting,
    tally: &mut Tally,
) -> Result<(), AllocError> {
    let mut memory = memory_for::<P>(heap, setting.room)?;
    let mut window = Window::new(&mut memory, setting.limit);
    let mut model = Model::new(heap, setting.limit, setting.room);
    let mut from: u32 = 4_000;
    for place in 0..CALLS {
        from = from.saturating_add(random.below(2));
        from = from.saturating_sub(random.below(4).saturating_mul(setting.stride));
        if random.below(2) == 0 {
            let entry = Entry {
                position: from.saturating_add(random.below(5).saturating_mul(setting.stride)),
                place,
                price: any_price(random),
            };
            put_one(&mut window, &mut model, from, entry, tally)?;
        } else {
            ask_one(&mut window, &mut model, from, tally);
        }
    }
    Ok(())
}

fn run_cases<P: Price + PartialEq>(heap: Global, seed: u64) -> Result<Tally, AllocError> {
    let limits = [0, 1, 7, 4_094, u32::MAX];
    let strides = [1, 2, 40];
    let rooms = [CALLS, CALLS, CALLS, 3];
    let mut random = Random::new(seed);
    let mut tally = Tally::default();
    for case in 0..CASES {
        let setting = Setting {
            limit: limits[case % limits.len()],
            stride: strides[case % strides.len()],
            room: rooms[case % rooms.len()],
        };
        run_case::<P>(heap, &mut random, setting, &mut tally)?;
        tally.count_case();
    }
    Ok(tally)
}

fn main(rt: HostRuntime) -> anyhow::Result<()> {
    let changes = run_cases::<Changes>(rt.alloc(), 20_260_101)?;
    println!(rt; "changes: {changes}")?;
    let silence = run_cases::<ChangesThenSilence>(rt.alloc(), 20_260_102)?;
    println!(rt; "changes, then silence: {silence}")?;
    Ok(())
}
