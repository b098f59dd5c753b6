//! A free list to which blocks are given back in runs.
ghost use Rattle.std.specs.Prelude.{◌≡◌, ◌%◌, ◌<◌, ◌≤◌, ◌↔◌, ◌⊎◌, true, false, IfOk, OnOk, OnErr, IsNone, IfSome, All, Contains, [], ◌∷◌, length, option_map, vec_capacity};
ghost use Rattle.std.specs.Int.NonZero.{non_zero_u32_get};
ghost use Rattle.std.specs.List.{insert};
ghost use Rattle.gc_free.specs.Runs.{run, end_of};
ghost use Rattle.gc_free.specs.Listed.{run_length_at};
ghost use Rattle.gc_free.specs.Space.{free_runs, new_space, take, give, grow, IsSound};
ghost use Rattle.gc_free.specs.Laws.{give_all};
ghost use Rattle.gc_free.specs.Waiting.{CanWait, StandsFor};

use crate::free_list::FreeList;
use crate::free_runs::put_at;
use crate::run::{ALIGN, Run};
use std::alloc::{AllocError, Global};
use std::marker::Model;
use std::num::NonZeroU32;

/// So many runs may wait: few enough to look through one by one.
const MOST_WAITING: usize = 16;

/// The index at which a run that begins at a place stands among those that wait, by rising place; only that it
/// is an index is proved. Searched from the end, near which most lie that a collection gives back.
fn rank_in(waiting: &[Run], place: u32) -> usize
    ensures { result ≤ length waiting.now }
{
    let mut at = waiting.len();
    while at > 0 && place < waiting[at - 1].place {
        at -= 1;
    }
    at
}

/// Whether the second run begins where the first ends.
fn is_followed_by(first: Run, second: Run) -> bool
    ensures { result ≡ true ↔ (end_of first ≡ second.place) }
{
    first.place <= second.place && second.place - first.place == first.length
}

/// The list takes each run that waits.
fn settle(list: &mut FreeList, waiting: &mut Vec<Run>, highest: &mut u32)
    requires { (waiting.old.items ≡ []) ⊎ CanWait waiting.old.items list.old.space }
    ensures given { list.new.space ≡ give_all waiting.old.items list.old.space }
    ensures memory { list.new.memory ≡ list.old.memory }
    ensures waiting { waiting.new.items ≡ [] }
    ensures room { vec_capacity waiting.new ≡ vec_capacity waiting.old }
{
    *highest = 0;
    while let Some(run) = waiting.pop() {
        list.give_run(run);
    }
}

/// A block as one with the run behind it, where that touches it.
fn join_behind(list: &mut FreeList, waiting: &mut Vec<Run>, at: usize, block: Run) -> Run
    requires within { at ≤ length waiting.old.items }
    requires can_wait { CanWait (block ∷ waiting.old.items) list.old.space }
    ensures joined { StandsFor (block ∷ waiting.old.items) list.old.space (result ∷ waiting.new.items) list.new.space }
    ensures memory { list.new.memory ≡ list.old.memory }
    ensures within { at ≤ length waiting.new.items }
    ensures few { length waiting.new.items ≤ length waiting.old.items }
    ensures room { vec_capacity waiting.new ≡ vec_capacity waiting.old }
{
    if at == waiting.len() {
        return block;
    }
    if !is_followed_by(block, waiting[at]) {
        return block;
    }
    let behind = waiting.remove(at);
    list.join_held(block, behind);
    Run {
        place: block.place,
        length: block.length + behind.length,
    }
}

/// Whether the run before a block touches it; then the block waits as a part of that run.
fn join_before(list: &mut FreeList, waiting: &mut Vec<Run>, at: usize, block: Run) -> bool
    requires within { at ≤ length waiting.old.items }
    requires can_wait { CanWait (block ∷ waiting.old.items) list.old.space }
    ensures joined { result ≡ true → StandsFor (block ∷ waiting.old.items) list.old.space waiting.new.items list.new.space }
    ensures none { result ≡ false → waiting.new.items ≡ waiting.old.items }
    ensures same { result ≡ false → list.new.space ≡ list.old.space }
    ensures memory { list.new.memory ≡ list.old.memory }
    ensures few { length waiting.new.items ≡ length waiting.old.items }
    ensures room { vec_capacity waiting.new ≡ vec_capacity waiting.old }
{
    if at == 0 {
        return false;
    }
    let before = waiting[at - 1];
    if !is_followed_by(before, block) {
        return false;
    }
    list.join_held(before, block);
    waiting[at - 1] = Run {
        place: before.place,
        length: before.length + block.length,
    };
    true
}

/// As `put_at`; behind all others by a push, which moves nothing.
fn add_at(waiting: &mut Vec<Run>, at: usize, run: Run)
    requires within { at ≤ length waiting.old.items }
    requires room { length waiting.old.items < vec_capacity waiting.old }
    ensures items { waiting.new.items ≡ insert waiting.old.items at run }
    ensures room { vec_capacity waiting.old ≤ vec_capacity waiting.new }
{
    if at < waiting.len() {
        put_at(waiting, at, run);
        return;
    }
    match waiting.push(run) {
        Ok(()) => {}
        Err(_) => unreachable!(),
    }
}

/// A block waits as a run of its own. Where the most wait already, the list takes the first.
fn put(list: &mut FreeList, waiting: &mut Vec<Run>, at: usize, block: Run)
    requires within { at ≤ length waiting.old.items }
    requires can_wait { CanWait (block ∷ waiting.old.items) list.old.space }
    requires few { length waiting.old.items ≤ MOST_WAITING }
    requires room { MOST_WAITING ≤ vec_capacity waiting.old }
    ensures put { StandsFor (block ∷ waiting.old.items) list.old.space waiting.new.items list.new.space }
    ensures memory { list.new.memory ≡ list.old.memory }
    ensures few { length waiting.new.items ≤ MOST_WAITING }
    ensures room { vec_capacity waiting.old ≤ vec_capacity waiting.new }
{
    if waiting.len() < MOST_WAITING {
        add_at(waiting, at, block);
        return;
    }
    let first = waiting.remove(0);
    list.give_run(first);
    add_at(waiting, at.saturating_sub(1), block);
}

/// A block waits, as one with the runs that it touches.
fn give_later(list: &mut FreeList, waiting: &mut Vec<Run>, block: Run)
    requires can_wait { CanWait (block ∷ waiting.old.items) list.old.space }
    requires few { length waiting.old.items ≤ MOST_WAITING }
    requires room { MOST_WAITING ≤ vec_capacity waiting.old }
    ensures given { StandsFor (block ∷ waiting.old.items) list.old.space waiting.new.items list.new.space }
    ensures memory { list.new.memory ≡ list.old.memory }
    ensures few { length waiting.new.items ≤ MOST_WAITING }
    ensures room { vec_capacity waiting.old ≤ vec_capacity waiting.new }
{
    let at = rank_in(waiting, block.place);
    let block = join_behind(list, waiting, at, block);
    if join_before(list, waiting, at, block) {
        return;
    }
    put(list, waiting, at, block);
}

/// A free list to which blocks are given back in runs. A collection gives many blocks back one behind the
/// other, and many touch one that was given back shortly before; so they wait, those that touch as one, and
/// the list takes each run at once. A search for room and a rise of the capacity have the list take them
/// first, and so has a question about a place, but for one behind all that waits. While a run is current,
/// nothing waits.
///
/// Contracts see what they see of a `FreeList` to which each block is given back at once. The calls have the
/// names and clauses of those of `FreeList`; none lists the free runs, and how many steps a search takes isn't
/// told.
#[derive(Drop)]
pub struct BatchedFreeList {
    list: FreeList,
    /// Each is one held block of the list. They stand by rising place (not proved), so that a run that a
    /// block touches is found.
    waiting: Vec<Run>,
    /// No run that waits ends behind this place.
    highest: u32,
}

impl Model for BatchedFreeList {
    ghost use Rattle.gc_free.specs.View.{FreeListView, view_code};

    ghost Value = { FreeListView };

    ghost coded = { view_code };

    ghost use Rattle.std.specs.Prelude.{vec_capacity};
    ghost use Rattle.gc_free.specs.Laws.{give_all};
    ghost use Rattle.gc_free.specs.Waiting.{KeepsWaiting};

    ghost view = { λ l. record { space = give_all l.waiting.items l.list.space; memory = l.list.memory } };

    ghost invariant = { λ l. KeepsWaiting l.waiting.items l.highest (vec_capacity l.waiting) l.list.space };
}

impl BatchedFreeList {
    /// As `FreeList::new`, with room for the runs that wait. `AllocError` where there is no memory for the
    /// first entry or for that room.
    pub fn new(alloc: Global, capacity: usize) -> Result<BatchedFreeList, AllocError>
        ensures made { IfOk result (λ list. list.space ≡ new_space capacity) }
        ensures sound { IfOk result (λ list. IsSound list.space) }
    {
        let list = FreeList::new(alloc, capacity)?;
        let waiting = Vec::with_capacity(alloc, MOST_WAITING)?;
        Ok(BatchedFreeList {
            list,
            waiting,
            highest: 0,
        })
    }

    /// As `FreeList::current_capacity`.
    pub fn current_capacity(&self) -> usize
        ensures capacity { result ≡ self.now.space.capacity }
        ensures sound { IsSound self.now.space }
    {
        self.list.current_capacity()
    }

    /// As `FreeList::run_at`. The list takes what waits first, but where all of it ends before the place: so
    /// a walk over rising places may ask at each of them and give blocks back between, and these still wait.
    #[inline(always)]
    pub fn run_at(&mut self, place: u32) -> Option<u32>
        ensures length { result ≡ run_length_at place self.old.space }
        ensures same { self.new ≡ self.old }
        ensures sound { IsSound self.new.space }
    {
        if self.highest < place {
            return self.list.run_at(place);
        }
        settle(&mut self.list, &mut self.waiting, &mut self.highest);
        self.list.run_at(place)
    }

    /// As `FreeList::add_capacity`. The list takes what waits first.
    pub fn add_capacity(&mut self, additional: usize)
        ensures grown { self.new.space ≡ grow additional self.old.space }
        ensures memory { self.new.memory ≡ self.old.memory }
        ensures sound { IsSound self.new.space }
    {
        settle(&mut self.list, &mut self.waiting, &mut self.highest);
        self.list.add_capacity(additional);
    }

    /// As `FreeList::alloc_fast`, with its condition and its answers. The list takes what waits first.
    pub fn alloc_fast(&mut self, alloc_size: u32) -> Result<Option<NonZeroU32>, AllocError>
        requires whole { alloc_size % ALIGN ≡ 0 }
        requires some { 0 < alloc_size }
        ensures sound { IsSound self.new.space }
        ensures err { OnErr result (self.new.space ≡ self.old.space) }
        ensures place { IfOk result (λ place.
            option_map (λ p. non_zero_u32_get p) place ≡ (take alloc_size self.old.space).place) }
        ensures after { OnOk result (self.new.space ≡ (take alloc_size self.old.space).space) }
        ensures none { IfOk result (λ place. IsNone place ↔ All (λ r. r.length < alloc_size) (free_runs self.old.space)) }
        ensures aligned { IfOk result (λ place. IfSome place (λ p. non_zero_u32_get p % ALIGN ≡ 0)) }
    {
        settle(&mut self.list, &mut self.waiting, &mut self.highest);
        self.list.alloc_fast(alloc_size)
    }

    /// As `FreeList::dealloc_fast`, with its condition. The free runs take no memory for it, nor do those that
    /// wait (not proved). While no run is current it takes constant time where the block touches a run that
    /// waits, or where fewer than the most wait (not proved).
    pub fn dealloc_fast(&mut self, index: NonZeroU32, alloc_size: u32)
        requires { Contains self.old.space.held (run (non_zero_u32_get index) alloc_size) }
        ensures sound { IsSound self.new.space }
        ensures given { self.new.space ≡ give (run (non_zero_u32_get index) alloc_size) self.old.space }
        ensures memory { self.new.memory ≡ self.old.memory }
    {
        let block = Run {
            place: index.get(),
            length: alloc_size,
        };
        if self.list.has_current() {
            self.list.give_run(block);
            return;
        }
        give_later(&mut self.list, &mut self.waiting, block);
        self.highest = self.highest.max(block.end());
    }
}
