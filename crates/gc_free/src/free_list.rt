//! The coalescing free list.
ghost use Rattle.std.specs.Prelude.{◌≡◌, ◌≢◌, ◌+◌, ◌-◌, ◌*◌, ◌%◌, ◌^◌, ◌<◌, ◌≤◌, ◌↔◌, true, false, IfOk, OnOk, OnErr, IsNone, IfNone, IfSome, All, Contains, MatchOption, None, length, option_map};
ghost use Rattle.std.specs.Int.NonZero.{non_zero_u32_get};
ghost use Rattle.gc_free.specs.Runs.{run, end_of};
ghost use Rattle.gc_free.specs.Listed.{listed, current_at, run_length_at};
ghost use Rattle.gc_free.specs.Space.{free_runs, new_space, take, give, grow, IsSound, IsTaken};
ghost use Rattle.gc_free.specs.Waiting.{with_joined};

use crate::blocks::FreeBlocks;
use crate::free_runs::FreeRuns;
use crate::held::{Change, HeldBlocks};
use crate::merging::set_free;
use crate::placing::place;
use crate::run::{ALIGN, Run, places_end, run_between};
use gc_steps::Steps;
use std::alloc::{AllocError, Global};
use std::marker::{Brand, Model};
use std::num::NonZeroU32;
use std::sync::ledger::{Blank, Ledger};

/// The free places of a heap, in runs. The name and the calls are those of wasmtime's free list; the
/// placing rule is this project's, and loses no place.
///
/// Contracts see a `View`: the space (the capacity, the held blocks and the current run) and the
/// memory that the free runs lie in.
#[derive(Drop)]
pub struct FreeList {
    capacity: usize,
    others: FreeRuns,
    current: Option<Run>,
    blocks: usize,
    held: HeldBlocks,
}

impl Model for FreeList {
    ghost use Rattle.gc_free.specs.View.{FreeListView, view_code};

    ghost Value = { FreeListView };

    ghost coded = { view_code };

    ghost use Rattle.gc_free.specs.Kept.{KeepsRuns};

    ghost view = { λ l. record {
      space = record { capacity = l.capacity; held = l.held.blocks; current = l.current };
      memory = l.others.memory;
    } };

    ghost invariant = { λ l. KeepsRuns (record { capacity = l.capacity; held = l.held.blocks; current = l.current })
        l.others.runs l.others.room l.blocks };
}

/// The current run, if it begins at a place and has any.
fn current_at(current: Option<Run>, place: u32) -> Option<Run>
    ensures { result ≡ current_at place current }
{
    match current {
        Some(run) if run.place == place => run.if_any(),
        _ => None,
    }
}

fn length_of(run: Option<Run>) -> Option<u32>
    ensures { result ≡ option_map (λ r. r.length) run }
{
    match run {
        Some(run) => Some(run.length),
        None => None,
    }
}

impl FreeList {
    /// Manages the places from 16 up to `capacity` bytes, in one run, which is the current one.
    /// `AllocError` where there is no memory for the first entry.
    pub fn new(alloc: Global, capacity: usize) -> Result<FreeList, AllocError>
        ensures made { IfOk result (λ list. list.space ≡ new_space capacity) }
        ensures sound { IfOk result (λ list. IsSound list.space) }
    {
        let mut others = FreeRuns::new(alloc);
        others.reserve(1)?;
        Ok(FreeList {
            capacity,
            others,
            current: run_between(ALIGN, places_end(capacity)),
            blocks: 0,
            held: HeldBlocks::none(),
        })
    }

    /// The bytes of capacity. Those past the greatest u32, and a part of 16 at the end, have no places.
    pub fn current_capacity(&self) -> usize
        ensures capacity { result ≡ self.now.space.capacity }
        ensures sound { IsSound self.now.space }
    {
        self.capacity
    }

    /// Each free run as its place and its length in bytes, by rising place with the current run last
    /// where it has places.
    pub fn iter_free_blocks(&self) -> FreeBlocks<'_>
        ensures blocks { result ≡ listed self.now.space }
        ensures sound { IsSound self.now.space }
    {
        let current = match self.current {
            Some(run) => run.if_any(),
            None => None,
        };
        FreeBlocks::new(self.others.as_slice(), current)
    }

    /// The length in bytes of the free run that begins at a place, `None` exactly where none does. One
    /// search of the runs (not proved).
    pub fn run_at(&self, place: u32) -> Option<u32>
        ensures length { result ≡ run_length_at place self.now.space }
        ensures sound { IsSound self.now.space }
    {
        self.length_at::<Brand>(place, Blank::new(1))
    }

    fn length_at<L: Ledger>(&self, place: u32, blank: Blank) -> Option<u32>
        requires name { blank.name ≡ L.name }
        requires parts { blank.parts ≡ L.parts }
        requires some { 0 < blank.parts }
        ensures length { result ≡ run_length_at place self.now.space }
        ensures sound { IsSound self.now.space }
    {
        if let Some(run) = current_at(self.current, place) {
            return Some(run.length);
        }
        let mut steps = Steps::<L>::new(blank);
        let run = self.others.get(place, &mut steps);
        length_of(run)
    }

    /// The capacity rises by so many bytes, and stops at the greatest usize. New places merge with the
    /// run that they touch, which is current then if it was, or if it is a current run used up whole.
    /// Takes no memory. Up to three searches, and entries of the runs move up (not proved).
    pub fn add_capacity(&mut self, additional: usize)
        ensures grown { self.new.space ≡ grow additional self.old.space }
        ensures memory { self.new.memory ≡ self.old.memory }
        ensures sound { IsSound self.new.space }
    {
        self.grow::<Brand>(additional, Blank::new(1));
    }

    fn grow<L: Ledger>(&mut self, additional: usize, blank: Blank)
        requires name { blank.name ≡ L.name }
        requires parts { blank.parts ≡ L.parts }
        requires some { 0 < blank.parts }
        ensures grown { self.new.space ≡ grow additional self.old.space }
        ensures memory { self.new.memory ≡ self.old.memory }
        ensures sound { IsSound self.new.space }
    {
        let mut steps = Steps::<L>::new(blank);
        let from = ALIGN.max(places_end(self.capacity));
        self.capacity = self.capacity.saturating_add(additional);
        let Some(places) = run_between(from, places_end(self.capacity)) else {
            return;
        };
        self.current = set_free(&mut self.others, self.current, places, &mut steps);
    }

    /// A block of `alloc_size` bytes, at the front of the current run where that is long enough, and
    /// else of the shortest run that is, at equal lengths the one at the lowest place. The rest of that
    /// run is current then. `None` exactly where no free run is long enough, and then none is current.
    ///
    /// Condition: `alloc_size` is a multiple of 16, and not 0; `aligned_size` makes it so.
    ///
    /// `AllocError` where there is no memory for the entries of the runs that the block may leave; then
    /// runs and blocks are as before. The searches are those of `alloc_counted`; entries of the runs
    /// behind the one that is taken move (not proved).
    pub fn alloc_fast(&mut self, alloc_size: u32) -> Result<Option<NonZeroU32>, AllocError>
        requires whole { alloc_size % ALIGN ≡ 0 }
        requires some { 0 < alloc_size }
        ensures place { IfOk result (λ place.
            option_map (λ p. non_zero_u32_get p) place ≡ (take alloc_size self.old.space).place) }
        ensures after { OnOk result (self.new.space ≡ (take alloc_size self.old.space).space) }
        ensures none { IfOk result (λ place. IsNone place ↔ All (λ r. r.length < alloc_size) (free_runs self.old.space)) }
        ensures aligned { IfOk result (λ place. IfSome place (λ p. non_zero_u32_get p % ALIGN ≡ 0)) }
        ensures err { OnErr result (self.new.space ≡ self.old.space) }
        ensures sound { IsSound self.new.space }
    {
        self.alloc::<Brand>(alloc_size, Blank::new(1))
    }

    fn alloc<L: Ledger>(
        &mut self,
        alloc_size: u32,
        blank: Blank,
    ) -> Result<Option<NonZeroU32>, AllocError>
        requires name { blank.name ≡ L.name }
        requires parts { blank.parts ≡ L.parts }
        requires counts { 0 < blank.parts }
        requires whole { alloc_size % ALIGN ≡ 0 }
        requires some { 0 < alloc_size }
        ensures taken { IfOk result (λ place. IsTaken alloc_size self.old.space (option_map (λ p. non_zero_u32_get p) place)) }
        ensures after { OnOk result (self.new.space ≡ (take alloc_size self.old.space).space) }
        ensures err { OnErr result (self.new.space ≡ self.old.space) }
        ensures sound { IsSound self.new.space }
    {
        let mut steps = Steps::<L>::new(blank);
        self.alloc_counted(alloc_size, &mut steps)
    }

    /// As `alloc_fast`, with its condition, its answers and its `AllocError`. Each comparison of a search
    /// is a step. With r free runs before the call and s steps in it, 2^s is at most (2r + 1)^4; where no
    /// current run is long enough, 2^(s + 1) is at least r + 2.
    pub fn alloc_counted<G: Ledger>(
        &mut self,
        alloc_size: u32,
        steps: &mut Steps<G>,
    ) -> Result<Option<NonZeroU32>, AllocError>
        requires whole { alloc_size % ALIGN ≡ 0 }
        requires some { 0 < alloc_size }
        ensures place { IfOk result (λ place.
            option_map (λ p. non_zero_u32_get p) place ≡ (take alloc_size self.old.space).place) }
        ensures after { OnOk result (self.new.space ≡ (take alloc_size self.old.space).space) }
        ensures none { IfOk result (λ place. IsNone place ↔ All (λ r. r.length < alloc_size) (free_runs self.old.space)) }
        ensures aligned { IfOk result (λ place. IfSome place (λ p. non_zero_u32_get p % ALIGN ≡ 0)) }
        ensures err { OnErr result (self.new.space ≡ self.old.space) }
        ensures sound { IsSound self.new.space }
        ensures rises { steps.old ≤ steps.new }
        ensures cost { 2 ^ (steps.new - steps.old) ≤ (2 * length (free_runs self.old.space) + 1) ^ 4 }
        ensures least { OnOk result (MatchOption self.old.space.current (Unit {0}) (λ c. c.length < alloc_size)
            → length (free_runs self.old.space) + 2 ≤ 2 ^ (steps.new - steps.old + 1)) }
    {
        self.others.reserve(self.blocks + 2)?;
        let placed = place(&mut self.others, self.current, alloc_size, steps);
        self.current = placed.current;
        let Some(block) = placed.block else {
            return Ok(None);
        };
        self.blocks += 1;
        self.held = self.held.after(&Change::Taken(block));
        Ok(NonZeroU32::new(block.place))
    }

    /// Gives back the block of `alloc_size` bytes at `index`. It merges with the runs that it touches;
    /// the whole is current where one of them was, or where it touches a current run used up whole.
    /// Takes no memory. Up to three searches, and entries of the runs move (not proved).
    ///
    /// Condition: that block is held.
    pub fn dealloc_fast(&mut self, index: NonZeroU32, alloc_size: u32)
        requires { Contains self.old.space.held (run (non_zero_u32_get index) alloc_size) }
        ensures given { self.new.space ≡ give (run (non_zero_u32_get index) alloc_size) self.old.space }
        ensures memory { self.new.memory ≡ self.old.memory }
        ensures sound { IsSound self.new.space }
    {
        let block = Run {
            place: index.get(),
            length: alloc_size,
        };
        self.give_back::<Brand>(block, Blank::new(1));
    }

    /// As `dealloc_fast`, by the block.
    pub(crate) fn give_run(&mut self, block: Run)
        requires { Contains self.old.space.held block }
        ensures given { self.new.space ≡ give block self.old.space }
        ensures memory { self.new.memory ≡ self.old.memory }
        ensures sound { IsSound self.new.space }
    {
        self.give_back::<Brand>(block, Blank::new(1));
    }

    /// Whether a run is current, though it may have no places.
    #[inline(always)]
    pub(crate) fn has_current(&self) -> bool
        ensures none { result ≡ false → self.now.space.current ≡ None }
        ensures some { result ≡ true → self.now.space.current ≢ None }
        ensures sound { IsSound self.now.space }
    {
        match self.current {
            Some(_) => true,
            None => false,
        }
    }

    /// Two held blocks that touch, the lower first, are held as one from now on. Takes no memory; constant
    /// time (not proved).
    ///
    /// Condition: both are held, the first ends where the second begins, and no run is current.
    #[inline(always)]
    pub(crate) fn join_held(&mut self, first: Run, second: Run)
        requires first { Contains self.old.space.held first }
        requires second { Contains self.old.space.held second }
        requires touch { end_of first ≡ second.place }
        requires idle { self.old.space.current ≡ None }
        ensures joined { self.new.space ≡ with_joined first second self.old.space }
        ensures memory { self.new.memory ≡ self.old.memory }
        ensures sound { IsSound self.new.space }
    {
        self.blocks -= 1;
        self.held = self.held.after(&Change::Joined(first, second));
    }

    fn give_back<L: Ledger>(&mut self, block: Run, blank: Blank)
        requires name { blank.name ≡ L.name }
        requires parts { blank.parts ≡ L.parts }
        requires some { 0 < blank.parts }
        requires held { Contains self.old.space.held block }
        ensures given { self.new.space ≡ give block self.old.space }
        ensures memory { self.new.memory ≡ self.old.memory }
        ensures sound { IsSound self.new.space }
    {
        let mut steps = Steps::<L>::new(blank);
        self.current = set_free(&mut self.others, self.current, block, &mut steps);
        self.blocks -= 1;
        self.held = self.held.after(&Change::Given(block));
    }
}
