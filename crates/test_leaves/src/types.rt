//! Tables of types: which may be declared, which match, and where values lie.

use crate::answers::{Answers, answer_rows};
use crate::fault::CaseFault;
use crate::layouts::show_layouts;
use crate::numbers::low_u32;
use crate::shapes::{declare, fill_chain, fill_family};
use crate::type_words::{field_of, ref_type_of};
use gc_types::{Types, VMSharedTypeIndex};
use std::alloc::{AllocError, Global};

/// The table that the rows fill and ask.
#[derive(Drop)]
struct Table {
    alloc: Global,
    types: Types,
}

/// Adds each row on types with its answer.
pub(crate) fn answer(alloc: Global, rows: &str, out: &mut String) -> Result<(), AllocError> {
    let types = Types::new(alloc, 3, 8);
    answer_rows(alloc, &mut Table { alloc, types }, rows, out)
}

impl Answers for Table {
    fn answer(
        &mut self,
        name: &str,
        words: &[&str],
        numbers: &[u128],
        out: &mut String,
    ) -> Result<(), CaseFault> {
        match (name, words) {
            ("ref", [first, second]) => refs_match(&self.types, first, second, out),
            ("field", [first, second]) => fields_match(&self.types, first, second, out),
            (_, []) => self.answer_numbers(name, numbers, out),
            _ => {
                let ty = declare(self.alloc, &mut self.types, name, words, numbers)?;
                Ok(write!(out, "{}", ty.as_u32())?)
            }
        }
    }
}

impl Table {
    /// Takes another table, with the types that it begins with.
    fn begin(&mut self, name: &str, count: u32) -> Result<(), CaseFault> {
        self.types = Types::new(self.alloc, 3, 8);
        match name {
            "family" => fill_family(self.alloc, &mut self.types),
            _ => fill_chain(&mut self.types, count),
        }
    }

    /// Answers a row without words.
    fn answer_numbers(
        &mut self,
        name: &str,
        numbers: &[u128],
        out: &mut String,
    ) -> Result<(), CaseFault> {
        let first = low_u32(numbers.first().copied().unwrap_or(0));
        match (name, numbers) {
            ("table" | "family" | "chain", _) => {
                self.begin(name, first)?;
                Ok(out.push_str("begun")?)
            }
            (_, [_, second]) => Ok(count_pairs(&self.types, name, first, low_u32(*second), out)?),
            _ => Ok(show_layouts(&self.types, VMSharedTypeIndex::new(first), out)?),
        }
    }
}

/// Writes whether something is so.
fn show_truth(is_so: bool, out: &mut String) -> Result<(), AllocError> {
    out.push_str(if is_so { "yes" } else { "no" })
}

fn refs_match(types: &Types, first: &str, second: &str, out: &mut String) -> Result<(), CaseFault> {
    match (ref_type_of(first), ref_type_of(second)) {
        (Ok(first), Ok(second)) => Ok(show_truth(types.matches_ref(&first, &second), out)?),
        (Err(fault), _) | (_, Err(fault)) => Err(fault),
    }
}

fn fields_match(
    types: &Types,
    first: &str,
    second: &str,
    out: &mut String,
) -> Result<(), CaseFault> {
    match (field_of(first), field_of(second)) {
        (Ok(first), Ok(second)) => Ok(show_truth(types.matches_field(&first, &second), out)?),
        (Err(fault), _) | (_, Err(fault)) => Err(fault),
    }
}

/// Writes whether the first type is a subtype of the second, or how many pairs of the first so many are.
fn count_pairs(
    types: &Types,
    name: &str,
    first: u32,
    second: u32,
    out: &mut String,
) -> Result<(), AllocError> {
    if name == "climb" {
        return write!(out, "{}", climb(types, first, second));
    }
    let (sub, sup) = (
        VMSharedTypeIndex::new(first),
        VMSharedTypeIndex::new(second),
    );
    show_truth(types.is_subtype(sub, sup), out)
}

/// How many pairs there are of one of the first `subs` types and one of the first `sups` that it is a
/// subtype of.
fn climb(types: &Types, subs: u32, sups: u32) -> u64 {
    let mut pairs = 0u64;
    for sup in 0..sups {
        for sub in 0..subs {
            let sub = VMSharedTypeIndex::new(sub);
            if types.is_subtype(sub, VMSharedTypeIndex::new(sup)) {
                pairs = pairs.saturating_add(1);
            }
        }
    }
    pairs
}
