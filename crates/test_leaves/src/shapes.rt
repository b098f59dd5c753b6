//! Declares types.

use crate::fault::CaseFault;
use crate::numbers::low_u32;
use crate::row::row_of;
use crate::type_words::{fields_of, values_of};
use gc_types::{Types, VMSharedTypeIndex};
use std::alloc::Global;

/// The types of a family, one a line: structs 0 and 1, arrays 2 and 3, functions 4 and 5, exception 6, and
/// structs 7 and 8 with one constant field, a reference to struct 0 and to itself.
const FAMILY: &str = "struct open var=i32
struct 0 final var=i32 const=i64
array open var=i8
array 2 open var=i8
func open ?eq -> ?eq
func 4 open ?eq -> ?eq
exn i32
struct open const=?struct:0
struct open const=?struct:8";

/// Declares the types of a family in a table without types.
pub(crate) fn fill_family(alloc: Global, types: &mut Types) -> Result<(), CaseFault> {
    for line in FAMILY.lines() {
        declare_line(alloc, types, line)?;
    }
    Ok(())
}

/// Declares the type of a line.
fn declare_line(alloc: Global, types: &mut Types, line: &str) -> Result<(), CaseFault> {
    let row = row_of(alloc, line)?;
    if let Some((name, rest)) = row.words.as_slice().split_first() {
        declare(alloc, types, name, rest, row.numbers.as_slice())?;
    }
    Ok(())
}

/// Declares so many structs, each of which extends the one before it, in a table without types.
pub(crate) fn fill_chain(types: &mut Types, count: u32) -> Result<(), CaseFault> {
    let mut supertype = None;
    for _ in 0..count {
        let ty = types.declare_struct(&[], supertype, false)?;
        supertype = Some(ty.index());
    }
    Ok(())
}

/// What stands in front of the fields of a type: its supertype, if any, and whether it is final.
type Head = (Option<VMSharedTypeIndex>, bool);

/// Declares a type of that shape. The number, if there is one, is its supertype.
pub(crate) fn declare(
    alloc: Global,
    types: &mut Types,
    shape: &str,
    words: &[&str],
    numbers: &[u128],
) -> Result<VMSharedTypeIndex, CaseFault> {
    let supertype = numbers
        .first()
        .map(|number| VMSharedTypeIndex::new(low_u32(*number)));
    match (shape, words.split_first()) {
        ("exn", _) => declare_exn(alloc, types, words),
        ("struct", Some((kind, rest))) => {
            declare_struct(alloc, types, (supertype, *kind == "final"), rest)
        }
        ("array", Some((kind, rest))) => {
            declare_array(alloc, types, (supertype, *kind == "final"), rest)
        }
        ("func", Some((kind, rest))) => {
            declare_func(alloc, types, (supertype, *kind == "final"), rest)
        }
        _ => Err(CaseFault::NoCase),
    }
}

fn declare_struct(
    alloc: Global,
    types: &mut Types,
    head: Head,
    words: &[&str],
) -> Result<VMSharedTypeIndex, CaseFault> {
    let fields = fields_of(alloc, words)?;
    let ty = types.declare_struct(fields.as_slice(), head.0, head.1)?;
    Ok(ty.index())
}

fn declare_array(
    alloc: Global,
    types: &mut Types,
    head: Head,
    words: &[&str],
) -> Result<VMSharedTypeIndex, CaseFault> {
    let elems = fields_of(alloc, words)?;
    let [elem] = elems.as_slice() else {
        return Err(CaseFault::NoCase);
    };
    let ty = types.declare_array(*elem, head.0, head.1)?;
    Ok(ty.index())
}

/// The parameters stand before an arrow, and the results behind it.
fn declare_func(
    alloc: Global,
    types: &mut Types,
    head: Head,
    words: &[&str],
) -> Result<VMSharedTypeIndex, CaseFault> {
    let Some(at) = words.iter().position(|word| *word == "->") else {
        return Err(CaseFault::NoCase);
    };
    let params = values_of(alloc, &words[..at])?;
    let results = values_of(alloc, &words[at + 1..])?;
    let ty = types.declare_func(params.as_slice(), results.as_slice(), head.0, head.1)?;
    Ok(ty.index())
}

fn declare_exn(
    alloc: Global,
    types: &mut Types,
    words: &[&str],
) -> Result<VMSharedTypeIndex, CaseFault> {
    let params = values_of(alloc, words)?;
    let ty = types.declare_exn(params.as_slice())?;
    Ok(ty.index())
}
