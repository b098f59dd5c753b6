//! Reads the commands that declare types: `struct`, `array` and `exn`.

ghost use Rattle.std.specs.Prelude.{◌≡◌, ℕ, List, [], ◌∷◌, codes, IfOk, map};
ghost use Rattle.std.specs.Bool.{MatchBool};
ghost use Rattle.std.specs.List.{AllByRecursion};
ghost use Rattle.std.specs.Option.{option_map};
ghost use Rattle.gc_commands.specs.declared.form.Form.TheVariants as form;
ghost use Rattle.gc_commands.specs.Parts.{ReadsFront, ReadsSupertype};
ghost use Rattle.gc_commands.specs.Reading.{Reads};
ghost use Rattle.gc_commands.specs.Forms.{unless_bad};
ghost use Rattle.gc_commands.specs.Spelling.{FitsField, FitsValue, IsOfForm, operands_of};
ghost use Rattle.gc_commands.specs.Words.{field_text, value_type_text};

use crate::command::{Command, FieldWord, FieldWords, ValueWord, ValueWords};
use crate::numbers::type_of;
use crate::parts::read_end;
use crate::types::{field_of, value_of};
use crate::words::{Words, behind};
use std::alloc::{AllocError, Global};

/// The words behind `struct`: `final`, a supertype, and any number of fields.
pub(crate) fn read_struct(alloc: Global, words: &mut Words) -> Result<Command, AllocError>
    ensures { IfOk result (λ command. Reads (IsOfForm form.Struct) operands_of words.old (unless_bad command)) }
{
    let Some((is_final, supertype)) = read_front(words) else {
        return Ok(Command::Bad);
    };
    let Some(fields) = read_fields(alloc, words)? else {
        return Ok(Command::Bad);
    };
    Ok(Command::Struct {
        is_final,
        supertype,
        fields: FieldWords::from_vec(fields),
    })
}

/// The words behind `array`: `final`, a supertype, and a field.
#[inline(never)]
pub(crate) fn read_array(words: &mut Words) -> Command
    ensures { Reads (IsOfForm form.Array) operands_of words.old (unless_bad result) }
{
    let Some((is_final, supertype)) = read_front(words) else {
        return Command::Bad;
    };
    let Some(elem) = read_last_field(words) else {
        return Command::Bad;
    };
    Command::Array {
        is_final,
        supertype,
        elem,
    }
}

/// The words behind `exn`: any number of types of values.
pub(crate) fn read_exn(alloc: Global, words: &mut Words) -> Result<Command, AllocError>
    ensures { IfOk result (λ command. Reads (IsOfForm form.Exn) operands_of words.old (unless_bad command)) }
{
    let Some(params) = read_values(alloc, words)? else {
        return Ok(Command::Bad);
    };
    Ok(Command::Exn {
        params: ValueWords::from_vec(params),
    })
}

/// The front of a declaration: whether it is final, and its supertype.
fn read_front(words: &mut Words) -> Option<(bool, Option<u32>)>
    ensures { ReadsFront words.old result words.new }
{
    let is_final = read_final(words);
    let supertype = read_supertype(words)?;
    Some((is_final, supertype))
}

/// The word `final`, where it is the next one.
fn read_final(words: &mut Words) -> bool
    ensures { MatchBool result (words.old ≡ codes "final" ∷ words.new) ((words.new ≡ words.old) × ((others : List (List ℕ))
        → ¬ (words.old ≡ codes "final" ∷ others))) }
{
    match words.ahead().next() {
        Some(b"final") => {
            let _final = words.next();
            true
        }
        _ => false,
    }
}

/// A supertype, where the next word begins with `sub:`.
fn read_supertype(words: &mut Words) -> Option<Option<u32>>
    ensures { ReadsSupertype words.old result words.new }
{
    let Some(word) = words.ahead().next() else {
        return Some(None);
    };
    let Some(index) = behind(word, b"sub:") else {
        return Some(None);
    };
    let _supertype = words.next();
    Some(Some(type_of(index)?))
}

/// One field, and no more words.
fn read_last_field(words: &mut Words) -> Option<FieldWord>
    ensures { Reads FitsField (λ f. field_text f ∷ []) words.old result }
{
    let field = field_of(words.next()?)?;
    read_end(words)?;
    Some(field)
}

/// The fields that all words spell.
fn read_fields(alloc: Global, words: &mut Words) -> Result<Option<Vec<FieldWord>>, AllocError>
    ensures { IfOk result (λ fields. Reads (AllByRecursion FitsField) (map field_text) words.old (option_map (λ fs. fs.items) fields)) }
{
    let mut fields = Vec::with_capacity(alloc, words.count())?;
    while let Some(word) = words.next() {
        let Some(field) = field_of(word) else {
            return Ok(None);
        };
        fields.push(field)?;
    }
    Ok(Some(fields))
}

/// The types of values that all words spell.
fn read_values(alloc: Global, words: &mut Words) -> Result<Option<Vec<ValueWord>>, AllocError>
    ensures { IfOk result (λ values. Reads (AllByRecursion FitsValue) (map value_type_text) words.old (option_map (λ vs. vs.items) values)) }
{
    let mut values = Vec::with_capacity(alloc, words.count())?;
    while let Some(word) = words.next() {
        let Some(value) = value_of(word) else {
            return Ok(None);
        };
        values.push(value)?;
    }
    Ok(Some(values))
}
