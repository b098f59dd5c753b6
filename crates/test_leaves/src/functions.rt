//! Tables of functions, of which the second type extends the first, and of continuations.

use crate::answers::{Answers, answer_rows, show_told};
use crate::fault::CaseFault;
use crate::numbers::{low_u32, low_u64};
use gc_tables::{ContRefTable, FuncRefTable, FuncRefTableId};
use gc_types::{Func, TypeFault, Types, VMSharedTypeIndex};
use std::alloc::{AllocError, Global};

/// The functions, and their types.
#[derive(Drop)]
struct Functions {
    types: Types,
    table: FuncRefTable,
}

/// Adds each row on functions with its answer.
pub(crate) fn answer(alloc: Global, rows: &str, out: &mut String) -> Result<(), AllocError> {
    let types = Types::new(alloc, 1, 1);
    let table = FuncRefTable::new(alloc);
    answer_rows(alloc, &mut Functions { types, table }, rows, out)
}

/// Adds each row on continuations with its answer.
pub(crate) fn answer_continuations(
    alloc: Global,
    rows: &str,
    out: &mut String,
) -> Result<(), AllocError> {
    answer_rows(alloc, &mut ContRefTable::new(alloc), rows, out)
}

impl Answers for Functions {
    fn answer(
        &mut self,
        name: &str,
        _words: &[&str],
        numbers: &[u128],
        out: &mut String,
    ) -> Result<(), CaseFault> {
        let written = match (name, numbers) {
            ("types", []) => return Ok(declare_two(&mut self.types)?),
            ("intern", [number, ty]) => {
                let func = Func::new(low_u32(*number), VMSharedTypeIndex::new(low_u32(*ty)));
                intern(&mut self.table, func, out)
            }
            ("none", []) => intern(&mut self.table, None, out),
            ("reserve", [count]) => self.table.reserve(low_u32(*count) as usize),
            ("get", [raw, ty]) => {
                let ty = VMSharedTypeIndex::new(low_u32(*ty));
                get(&self.types, &self.table, low_u32(*raw), ty, out)
            }
            _ => return Err(CaseFault::NoCase),
        };
        Ok(written?)
    }
}

/// Declares a function type and its subtype.
fn declare_two(types: &mut Types) -> Result<(), TypeFault> {
    let ty = types.declare_func(&[], &[], None, false)?;
    types.declare_func(&[], &[], Some(ty.index()), false)?;
    Ok(())
}

/// Adds a function, and writes its id.
fn intern(
    table: &mut FuncRefTable,
    func: Option<Func>,
    out: &mut String,
) -> Result<(), AllocError> {
    show_told(table.intern(func).map(|id| id.into_raw()), out)
}

/// Writes the number and the type of the function of an id, where it is of that type.
fn get(
    types: &Types,
    table: &FuncRefTable,
    raw: u32,
    ty: VMSharedTypeIndex,
    out: &mut String,
) -> Result<(), AllocError> {
    let Some(id) = FuncRefTableId::from_raw(raw) else {
        return out.push_str("no id");
    };
    match table.get_typed(types, id, ty) {
        Ok(Some(func)) => write!(out, "{} of type {}", func.number, func.ty.as_u32()),
        Ok(None) => out.push_str("none"),
        Err(fault) => write!(out, "{fault}"),
    }
}

impl Answers for ContRefTable {
    fn answer(
        &mut self,
        name: &str,
        _words: &[&str],
        numbers: &[u128],
        out: &mut String,
    ) -> Result<(), CaseFault> {
        let [number] = numbers else {
            return Err(CaseFault::NoCase);
        };
        let raw = low_u32(*number);
        let written = match name {
            "intern" => show_told(self.intern(Some(low_u64(*number))), out),
            "reserve" => self.reserve(raw as usize),
            "get" => show_told(self.get(raw).map(|cont| cont.unwrap_or(0)), out),
            _ => return Err(CaseFault::NoCase),
        };
        Ok(written?)
    }
}
