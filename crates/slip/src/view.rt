//! Slips: a question as one block.

ghost use Rattle.std.specs.Prelude.{◌≡◌, ◌-◌, true, false, length, map, IfOk, MatchOption, MatchResult, ◌≢◌, slice_index};
ghost use Rattle.notation.specs.Modes.{mode_number};
ghost use Rattle.slip.specs.Prices.{price_number};
ghost use Rattle.slip.specs.Slips.{Inquiry, slip_fields};
ghost use Rattle.slip.specs.SlipReading.{SlipReading, Asks, NoteTold, Checked, Spells, has_note};
ghost use Rattle.slip.specs.declared.fault.SlipFault.TheVariants.{Length};

use super::fault::SlipFault;
use super::price_kind::PriceKind;
use book::{Letter, check_block, fits_place, number_of, readable_front};
use notation::{Mode, Symbol};
use std::alloc::{AllocError, Global};
use std::marker::PhantomData;

/// A slip of the kind `S` that was read: a view on the bytes of its query.
#[derive(Drop)]
pub struct Slip<'a, S> {
    limit: u16,
    mode: Mode,
    price: PriceKind,
    query: &'a [u8],
    kind: PhantomData<S>,
}

impl<'a, S: Symbol> Slip<'a, S> {
    /// Reads a slip. All of it is checked before anything is told.
    pub fn read(input: &'a [u8]) -> Result<Slip<'a, S>, SlipFault>
        ensures { SlipReading S.kind input.now result }
    {
        Slip::of_block(whole_block(input)?)
    }

    pub fn limit(&self) -> u16
        ensures { (q : Inquiry) → Asks S.kind self.now q → result ≡ q.limit }
    {
        self.limit
    }

    pub fn mode(&self) -> Mode
        ensures { (q : Inquiry) → Asks S.kind self.now q → mode_number result ≡ q.mode }
    {
        self.mode
    }

    pub fn price(&self) -> PriceKind
        ensures { (q : Inquiry) → Asks S.kind self.now q → price_number result ≡ q.price }
    {
        self.price
    }

    /// The number of notes in the query.
    pub fn notes(&self) -> usize
        ensures { (q : Inquiry) → Asks S.kind self.now q → result ≡ length q.query }
    {
        self.query.len()
    }

    /// A note of the query, counted from 1; absent where there is no such note.
    pub fn note(&self, n: usize) -> Option<S>
        ensures { (q : Inquiry) → Asks S.kind self.now q → NoteTold S.byte q n result }
    {
        S::read(self.note_byte(n)?)
    }

    /// All notes of the query.
    pub fn query(&self, heap: Global) -> Result<Vec<S>, AllocError>
        ensures { IfOk result (λ v. (q : Inquiry) → Asks S.kind self.now q → map S.byte v.items ≡ q.query) }
    {
        let mut query = Vec::new(heap);
        for b in self.query {
            if let Some(note) = S::read(*b) {
                query.push(note)?;
            }
        }
        Ok(query)
    }

    /// The byte of a note.
    fn note_byte(&self, n: usize) -> Option<u8>
        ensures { MatchOption result (has_note self.now.query.now n ≡ false) (λ b. (has_note self.now.query.now n ≡ true) × (b ≡ slice_index self.now.query.now (n - 1))) }
    {
        self.query.get(n.checked_sub(1)?).copied()
    }

    /// Checks a block as a slip.
    fn of_block(block: &'a [u8; 512]) -> Result<Slip<'a, S>, SlipFault>
        ensures { Checked S.kind block.now result }
    {
        let Letter::Slip = check_block(0, block)? else {
            return Err(SlipFault::OutOfTurn);
        };
        if !fits_place::<S>(0, block[1], number_of(block[2], block[3])) {
            return Err(SlipFault::Unexpected);
        }
        let Some(slip) = Slip::of_fields(block) else {
            return Err(SlipFault::OutOfRange);
        };
        let front = readable_front::<S>(slip.query);
        if front < slip.query.len() {
            return Err(SlipFault::Unreadable { byte: 11 + front });
        }
        Ok(slip)
    }

    /// The slip of a block's fields, where its length and they are as they should be.
    fn of_fields(block: &'a [u8; 512]) -> Option<Slip<'a, S>>
        ensures { MatchOption result (slip_fields block.now ≡ false) (λ s. (slip_fields block.now ≡ true) × Spells block.now s) }
    {
        let notes = block[10];
        let limit = number_of(block[6], block[7]);
        if number_of(block[4], block[5]) != 5 + u16::from(notes)
            || limit > 4095
            || notes < 1
            || notes > 64
        {
            return None;
        }
        Some(Slip {
            limit,
            mode: Mode::try_from(block[8]).ok()?,
            price: PriceKind::try_from(block[9]).ok()?,
            query: &block[11..11 + usize::from(notes)],
            kind: PhantomData,
        })
    }
}

/// The block that an input is.
fn whole_block(input: &[u8]) -> Result<&[u8; 512], SlipFault>
    ensures { MatchResult result (λ b. b.now ≡ input.now) (λ f. (length input.now ≢ 512) × (f ≡ Length (length input.now))) }
{
    input
        .as_array::<512>()
        .ok_or(SlipFault::Length { bytes: input.len() })
}
