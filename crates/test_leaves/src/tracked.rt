//! A free list with the blocks that it placed, so that they can be given back.
ghost use Rattle.std.specs.Prelude.{◌≡◌, ◌%◌, ◌<◌, IfOk, OnOk, OnErr, nat_le, option_map, vec_len};
ghost use Rattle.std.specs.List.{position};
ghost use Rattle.std.specs.Coded.{Coded-set};
ghost use Rattle.std.specs.Int.NonZero.{non_zero_u32_get};
ghost use Rattle.gc_free.specs.Coding.{runs_code};
ghost use Rattle.gc_free.specs.Orders.{count_below};
ghost use Rattle.gc_free.specs.Space.{take};

use gc_free::{FreeList, Run, Steps};
use std::alloc::{AllocError, Global};
use std::marker::Brand;
use std::num::NonZeroU32;
use std::sync::ledger::{Blank, Ledger};

/// Which of the two allocating calls is asked.
#[derive(Clone, Copy)]
pub(crate) enum By {
    Fast,
    Counted,
}

/// The held blocks are known to be those of the free list.
#[derive(Drop)]
pub(crate) struct Tracked {
    pub(crate) list: FreeList,
    pub(crate) held: Vec<Run>,
    ghost same: { held.items ≡ list.space.held } by { Coded-set runs_code held.items list.space.held },
}

/// Asks an allocating call.
fn ask<L: Ledger>(
    list: &mut FreeList,
    size: u32,
    by: By,
    blank: Blank,
) -> Result<Option<NonZeroU32>, AllocError>
    requires name { blank.name ≡ L.name }
    requires parts { blank.parts ≡ L.parts }
    requires counts { 0 < blank.parts }
    requires whole { size % 16 ≡ 0 }
    requires some { 0 < size }
    ensures place { IfOk result (λ place.
        option_map (λ p. non_zero_u32_get p) place ≡ (take size list.old.space).place) }
    ensures after { OnOk result (list.new.space ≡ (take size list.old.space).space) }
    ensures err { OnErr result (list.new.space ≡ list.old.space) }
{
    match by {
        By::Fast => list.alloc_fast(size),
        By::Counted => list.alloc_counted(size, &mut Steps::<L>::new(blank)),
    }
}

/// The first of the blocks that doesn't begin before a place.
fn first_from(held: &[Run], place: u32) -> Option<usize>
    ensures { result ≡ position (λ block. nat_le place block.place) held.now }
{
    held.iter().position(|block| place <= block.place)
}

/// How many of the rising blocks begin before a place.
fn count_before(held: &[Run], place: u32) -> usize
    ensures { result ≡ count_below (λ block. block.place) place held.now }
{
    match first_from(held, place) {
        Some(index) => index,
        None => held.len(),
    }
}

impl Tracked {
    /// A free list of so many bytes.
    pub(crate) fn new(alloc: Global, capacity: usize) -> Result<Tracked, AllocError> {
        let list = FreeList::new(alloc, capacity)?;
        Ok(Tracked {
            list,
            held: Vec::new(alloc),
        })
    }

    /// Takes a block by one of the two calls.
    pub(crate) fn take(&mut self, size: u32, by: By) -> Result<Option<u32>, AllocError>
        requires whole { size % 16 ≡ 0 }
        requires some { 0 < size }
    {
        self.place::<Brand>(size, by, Blank::new(1))
    }

    fn place<L: Ledger>(
        &mut self,
        size: u32,
        by: By,
        blank: Blank,
    ) -> Result<Option<u32>, AllocError>
        requires name { blank.name ≡ L.name }
        requires parts { blank.parts ≡ L.parts }
        requires counts { 0 < blank.parts }
        requires whole { size % 16 ≡ 0 }
        requires some { 0 < size }
    {
        self.held.reserve(1)?;
        let Some(place) = ask::<L>(&mut self.list, size, by, blank)? else {
            return Ok(None);
        };
        let block = Run {
            place: place.get(),
            length: size,
        };
        let at = count_before(&self.held, block.place);
        match self.held.insert(at, block) {
            Ok(()) => {}
            Err(_) => unreachable!(),
        }
        Ok(Some(block.place))
    }

    /// Gives back the block at an index.
    pub(crate) fn give(&mut self, index: usize)
        requires { index < vec_len self.old.held }
    {
        let _ = self.list.current_capacity();
        let block = self.held[index];
        let Some(place) = NonZeroU32::new(block.place) else {
            return;
        };
        self.list.dealloc_fast(place, block.length);
        let _ = self.held.remove(index);
    }
}
