//! A free list, as rows take and give back its blocks.

use crate::answers::{Answers, answer_rows};
use crate::fault::CaseFault;
use crate::numbers::{low_u32, low_u64};
use crate::tracked::{By, Tracked};
use gc_free::{ALIGN, FreeList};
use std::alloc::{AllocError, Global};

/// The free list of which the rows take.
#[derive(Drop)]
struct Lists {
    alloc: Global,
    tracked: Tracked,
}

/// Adds each row on free lists with its answer.
pub(crate) fn answer(alloc: Global, rows: &str, out: &mut String) -> Result<(), AllocError> {
    let tracked = Tracked::new(alloc, 0)?;
    answer_rows(alloc, &mut Lists { alloc, tracked }, rows, out)
}

impl Answers for Lists {
    fn answer(
        &mut self,
        name: &str,
        _words: &[&str],
        numbers: &[u128],
        out: &mut String,
    ) -> Result<(), CaseFault> {
        let [number] = numbers else {
            return Err(CaseFault::NoCase);
        };
        let number = low_u64(*number);
        match name {
            "list" => self.tracked = Tracked::new(self.alloc, number as usize)?,
            "grow" => self.tracked.list.add_capacity(number as usize),
            _ => change(&mut self.tracked, name, low_u32(u128::from(number)), out)?,
        }
        Ok(show_free(&self.tracked.list, out)?)
    }
}

/// Takes a block of that size, or gives one at that place back.
fn change(
    tracked: &mut Tracked,
    name: &str,
    number: u32,
    out: &mut String,
) -> Result<(), CaseFault> {
    match name {
        "take" => take(tracked, By::Fast, number, out),
        "counted" => take(tracked, By::Counted, number, out),
        "give" => give(tracked, number),
        _ => Err(CaseFault::NoCase),
    }
}

/// Takes a block, and writes where it lies.
fn take(tracked: &mut Tracked, by: By, size: u32, out: &mut String) -> Result<(), CaseFault> {
    if size == 0 || size % ALIGN != 0 {
        return Err(CaseFault::NoCase);
    }
    let place = tracked.take(size, by)?;
    Ok(show_place(place, out)?)
}

/// Writes where a block lies.
fn show_place(place: Option<u32>, out: &mut String) -> Result<(), AllocError> {
    match place {
        Some(place) => write!(out, "at {place}, "),
        None => out.push_str("no room, "),
    }
}

/// Gives the block at a place back.
fn give(tracked: &mut Tracked, place: u32) -> Result<(), CaseFault> {
    match tracked.held.iter().position(|block| block.place == place) {
        Some(index) if index < tracked.held.len() => {
            tracked.give(index);
            Ok(())
        }
        _ => Err(CaseFault::NoCase),
    }
}

/// Writes how many free runs there are.
fn show_free(list: &FreeList, out: &mut String) -> Result<(), AllocError> {
    let mut count = 0u64;
    for _ in list.iter_free_blocks() {
        count = count.saturating_add(1);
    }
    write!(out, "{count} free")
}
