//! The function values and continuations that calls are given, and the numbers by which the heap has them.

ghost use Rattle.std.specs.Prelude.{◌≡◌, ◌≤◌, ◌↔◌, ℕ, [], ◌∷◌, IfOk, IsOk, IsTrue, Option, false};
ghost use Rattle.gc_model.specs.SideValues.{IsContCode, IsIdCode, max_entries, no_ids, no_side_values, same_cont, same_function};
ghost use Rattle.gc_values.specs.Interning.{AddsNew, CanIntern, CanInternAll, CountsNew, FindsPlaces, FindsRoom, InternsEach, InternsAll, InternsGiven, KeepsEntryRoom, KeepsRooms, request_values, ids_of};
ghost use Rattle.gc_values.specs.RawValues.{raw_conts, raw_functions, raw_side_values};
ghost use Rattle.gc_types.specs.declared.value.Func.{Func as FuncValue};

use crate::faults::{PlaceFault, WriteFault};
use crate::request::{Contents, Place};
use crate::root::RawValue;
use gc_tables::{ContRefTable, FuncRefTable, FuncRefTableId, InternFault};
use gc_types::Func;
use std::alloc::Global;
use std::slice;

/// How many values a table may have.
const MAX_ENTRIES: u64 = 1 << 31;

/// The function values and continuations that objects were given, by the ids that stand in the heap. None is ever given
/// back.
#[derive(Drop)]
pub struct InternedValues {
    /// The function values, none among them.
    pub functions: FuncRefTable,
    /// The continuations: the numbers that the embedder has for them.
    pub conts: ContRefTable,
}

impl InternedValues {
    /// Nothing is interned. It takes no memory.
    pub fn new(alloc: Global) -> InternedValues
        ensures { ids_of result ≡ no_ids }
    {
        InternedValues {
            functions: FuncRefTable::new(alloc),
            conts: ContRefTable::new(alloc),
        }
    }

    /// Whether nothing is interned.
    pub fn is_empty(&self) -> bool
        ensures { IsTrue result ↔ (ids_of self.now ≡ no_ids) }
    {
        self.functions.len() == 0 && self.conts.len() == 0
    }
}

/// The values of a request that are looked at: one for all elements of an array isn't where there are none.
pub fn given_values<'a>(request: &Place, contents: Contents<'a>) -> &'a [RawValue]
    ensures { result.now ≡ request_values request.now contents.entry }
{
    match contents {
        Contents::Each(values) => values,
        Contents::Same(value) => match *request {
            Place::Array(_, 0) => &[],
            _ => slice::from_ref(value),
        },
        Contents::Bytes(_) => &[],
    }
}

/// Puts a function value that isn't interned yet among the new ones.
fn add_new_function(
    functions: &FuncRefTable,
    new: &mut FuncRefTable,
    value: &RawValue,
) -> Result<(), InternFault>
    ensures { AddsNew same_function functions.now.entries new.old.entries new.new.entries (raw_functions (value.now ∷ [])) result }
{
    let RawValue::Func(func) = value else {
        return Ok(());
    };
    if functions.id_of(*func).is_some() {
        return Ok(());
    }
    match new.intern(*func) {
        Ok(_) => Ok(()),
        Err(fault) => Err(fault),
    }
}

/// Puts a continuation that isn't interned yet among the new ones.
fn add_new_cont(
    conts: &ContRefTable,
    new: &mut ContRefTable,
    value: &RawValue,
) -> Result<(), InternFault>
    ensures { AddsNew same_cont conts.now.entries new.old.entries new.new.entries (raw_conts (value.now ∷ [])) result }
{
    let RawValue::Cont(Some(cont)) = value else {
        return Ok(());
    };
    if conts.id_of(*cont).is_some() {
        return Ok(());
    }
    match new.intern(Some(*cont)) {
        Ok(_) => Ok(()),
        Err(fault) => Err(fault),
    }
}

/// How many of the function values among these aren't interned yet, each counted once.
fn count_new_functions(
    alloc: Global,
    functions: &FuncRefTable,
    values: &[RawValue],
) -> Result<u64, InternFault>
    ensures counts { CountsNew same_function functions.now.entries (raw_functions values.now) result }
    ensures bound { IfOk result (λ n. n ≤ max_entries) }
{
    let mut new = FuncRefTable::new(alloc);
    for value in values {
        match add_new_function(functions, &mut new, value) {
            Ok(()) => (),
            Err(fault) => return Err(fault),
        }
    }
    Ok(new.len())
}

/// How many of the continuations among these aren't interned yet, each counted once.
fn count_new_conts(
    alloc: Global,
    conts: &ContRefTable,
    values: &[RawValue],
) -> Result<u64, InternFault>
    ensures counts { CountsNew same_cont conts.now.entries (raw_conts values.now) result }
    ensures bound { IfOk result (λ n. n ≤ max_entries) }
{
    let mut new = ContRefTable::new(alloc);
    for value in values {
        match add_new_cont(conts, &mut new, value) {
            Ok(()) => (),
            Err(fault) => return Err(fault),
        }
    }
    Ok(new.len())
}

/// How many spare places a table with so many entries wants for what was counted.
fn find_places(
    entries: u64,
    counted: Result<u64, InternFault>,
    full: PlaceFault,
) -> Result<usize, PlaceFault>
    requires entries { entries ≤ max_entries }
    requires bound { IfOk counted (λ n. n ≤ max_entries) }
    ensures { FindsPlaces entries counted full result }
{
    match counted {
        Ok(new) => {
            if entries + new > MAX_ENTRIES {
                return Err(full);
            }
            Ok(new as usize)
        }
        Err(InternFault::Full) => Err(full),
        Err(InternFault::Memory) => Err(PlaceFault::Memory),
    }
}

/// Whether the value is a function value or a continuation, which are interned.
fn is_interned_kind(value: &RawValue) -> bool
    ensures { result ≡ false → raw_side_values (value.now ∷ []) ≡ no_side_values }
{
    match value {
        RawValue::Func(_) => true,
        RawValue::Cont(Some(_)) => true,
        _ => false,
    }
}

/// Whether a function value or a continuation is among these.
fn has_interned_kind(values: &[RawValue]) -> bool
    ensures { result ≡ false → raw_side_values values.now ≡ no_side_values }
{
    for value in values {
        if is_interned_kind(value) {
            return true;
        }
    }
    false
}

/// Makes room for those of the function values and continuations among these that aren't interned yet. Where there are
/// none, as in most objects, nothing is counted.
#[inline(always)]
pub fn find_room(
    alloc: Global,
    interned: &mut InternedValues,
    values: &[RawValue],
) -> Result<(), PlaceFault>
    ensures { FindsRoom interned.old interned.new (raw_side_values values.now) result }
{
    if !has_interned_kind(values) {
        return Ok(());
    }
    let functions = find_places(
        interned.functions.len(),
        count_new_functions(alloc, &interned.functions, values),
        PlaceFault::FuncTableFull,
    )?;
    let conts = find_places(
        interned.conts.len(),
        count_new_conts(alloc, &interned.conts, values),
        PlaceFault::ContTableFull,
    )?;
    if interned.functions.reserve(functions).is_err() {
        return Err(PlaceFault::Memory);
    }
    if interned.conts.reserve(conts).is_err() {
        return Err(PlaceFault::Memory);
    }
    Ok(())
}

/// Interns a function value, for which there is room, where it isn't interned yet.
fn intern_function(functions: &mut FuncRefTable, func: &Option<Func>)
    requires { CanIntern same_function functions.old (func.now ∷ []) }
    ensures interns { InternsEach same_function functions.old.entries functions.new.entries (func.now ∷ []) }
    ensures room { KeepsEntryRoom same_function functions.old functions.new (func.now ∷ []) }
{
    if functions.id_of(*func).is_some() {
        return;
    }
    match functions.intern(*func) {
        Ok(_) => (),
        Err(_) => unreachable!(),
    }
}

/// Interns a continuation, for which there is room, where it isn't interned yet.
fn intern_cont(conts: &mut ContRefTable, cont: u64)
    requires { CanIntern same_cont conts.old (cont ∷ []) }
    ensures interns { InternsEach same_cont conts.old.entries conts.new.entries (cont ∷ []) }
    ensures room { KeepsEntryRoom same_cont conts.old conts.new (cont ∷ []) }
{
    if conts.id_of(cont).is_some() {
        return;
    }
    match conts.intern(Some(cont)) {
        Ok(_) => (),
        Err(_) => unreachable!(),
    }
}

/// Interns a value, for which there is room, where it is a function value or a continuation.
#[inline(always)]
fn intern_value(interned: &mut InternedValues, value: &RawValue)
    requires { CanInternAll interned.old (raw_side_values (value.now ∷ [])) }
    ensures interns { InternsAll (ids_of interned.old) (ids_of interned.new) (raw_side_values (value.now ∷ [])) }
    ensures room { KeepsRooms interned.old interned.new (raw_side_values (value.now ∷ [])) }
{
    match value {
        RawValue::Func(func) => intern_function(&mut interned.functions, func),
        RawValue::Cont(Some(cont)) => intern_cont(&mut interned.conts, *cont),
        _ => (),
    }
}

/// Interns the function values and continuations among these, for which there is room.
#[inline(always)]
pub fn intern_all(interned: &mut InternedValues, values: &[RawValue])
    requires { CanInternAll interned.old (raw_side_values values.now) }
    ensures { InternsAll (ids_of interned.old) (ids_of interned.new) (raw_side_values values.now) }
{
    for value in values {
        intern_value(interned, value);
    }
}

/// Interns a value that is to be written, where it is a function value or a continuation.
pub fn intern_given(interned: &mut InternedValues, value: &RawValue) -> Result<(), WriteFault>
    ensures interns { InternsGiven (ids_of interned.old) (ids_of interned.new) (raw_side_values (value.now ∷ [])) result }
    ensures ok { raw_side_values (value.now ∷ []) ≡ no_side_values → IsOk result }
{
    match *value {
        RawValue::Func(func) => match interned.functions.intern(func) {
            Ok(_) => Ok(()),
            Err(InternFault::Full) => Err(WriteFault::FuncTableFull),
            Err(InternFault::Memory) => Err(WriteFault::Memory),
        },
        RawValue::Cont(Some(cont)) => match interned.conts.intern(Some(cont)) {
            Ok(_) => Ok(()),
            Err(InternFault::Full) => Err(WriteFault::ContTableFull),
            Err(InternFault::Memory) => Err(WriteFault::Memory),
        },
        _ => Ok(()),
    }
}

/// The function value that stands in the heap as that number.
pub fn function_at(functions: &FuncRefTable, code: u32) -> Option<Func>
    requires { (f : Option FuncValue) × IsIdCode functions.now.entries f code }
    ensures { (f : Option FuncValue) → IsIdCode functions.now.entries f code → result ≡ f }
{
    let _count = functions.len();
    let id = FuncRefTableId::from_raw(code).unwrap();
    match functions.get_untyped(id) {
        Ok(func) => func,
        Err(_) => unreachable!(),
    }
}

/// The continuation that stands in the heap as that number; 0 stands for none.
pub fn cont_at(conts: &ContRefTable, code: u32) -> Option<u64>
    requires { (c : Option ℕ) × IsContCode conts.now.entries c code }
    ensures { (c : Option ℕ) → IsContCode conts.now.entries c code → result ≡ c }
{
    match conts.get(code) {
        Ok(cont) => cont,
        Err(_) => unreachable!(),
    }
}
