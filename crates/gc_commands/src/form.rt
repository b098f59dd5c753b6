//! The forms of commands, which their first words tell apart.

ghost use Rattle.std.specs.Prelude.{◌≡◌, ◌==◌, ℕ, List, [], ◌∷◌, MatchOption, length};
ghost use Rattle.std.specs.List.{slice_split};
ghost use Rattle.std.specs.Option.{option_map_or};
ghost use Rattle.gc_commands.specs.Forms.{name_of};
ghost use Rattle.gc_commands.specs.Reading.{Reads};

use crate::words::first_space;

/// A form of command. Each has a first word of its own; `Bytes` is the form of two commands, which the
/// words behind it tell apart.
#[derive(Clone, Copy, Debug, PartialEq, Eq)]
pub enum Form {
    Struct,
    Array,
    Exn,
    New,
    NewExn,
    NewArr,
    Fixed,
    Bytes,
    Host,
    I31,
    Field,
    Elem,
    Len,
    HostNumber,
    SetField,
    SetElem,
    Eq,
    Enter,
    Leave,
    Push,
    Pop,
    Store,
    Load,
    SetGlobal,
    GetGlobal,
    Own,
    Root,
    Unroot,
    Throw,
    Take,
    Gc,
    GcDrop,
    GcInc,
    Grow,
    Cap,
}

/// No form has a first word of more bytes.
const MAX_NAME: usize = 6;

/// The form that a line's first word names, and what stands behind the space that ends the word, where one does. No more of a
/// line is looked at than a name and a space may have.
#[inline(always)]
pub(crate) fn cut_form(line: &[u8]) -> Option<(Form, Option<&[u8]>)>
    ensures { MatchOption result ((form : Form) (rest : List (List ℕ)) → ¬ (slice_split (λ b. b == 32) line.now ≡ name_of form ∷ rest))
        (λ cut. slice_split (λ b. b == 32) line.now ≡ name_of cut.0 ∷ option_map_or (λ rest. slice_split (λ b. b == 32) rest.now) cut.1 []) }
{
    let front = &line[..line.len().min(MAX_NAME + 1)];
    let (name, behind) = match first_space(front) {
        Some(at) => (&line[..at], Some(&line[at + 1..])),
        None => (front, None),
    };
    Some((form_of(name)?, behind))
}

/// The form that has this first word. A word is compared with those of its own length alone.
#[inline(always)]
fn form_of(word: &[u8]) -> Option<Form>
    ensures { Reads (λ f. Unit {0}) name_of word.now result }
{
    match word.len() {
        2 => form_of_two(word),
        3 => form_of_three(word),
        4 => form_of_four(word),
        5 => form_of_five(word),
        6 => form_of_six(word),
        _ => None,
    }
}

/// The form whose first word has two letters.
#[inline(always)]
fn form_of_two(word: &[u8]) -> Option<Form>
    requires { length word.now ≡ 2 }
    ensures { Reads (λ f. Unit {0}) name_of word.now result }
{
    match word {
        b"eq" => Some(Form::Eq),
        b"gc" => Some(Form::Gc),
        _ => None,
    }
}

/// The form whose first word has three letters.
#[inline(always)]
fn form_of_three(word: &[u8]) -> Option<Form>
    requires { length word.now ≡ 3 }
    ensures { Reads (λ f. Unit {0}) name_of word.now result }
{
    match word {
        b"exn" => Some(Form::Exn),
        b"new" => Some(Form::New),
        b"i31" => Some(Form::I31),
        b"len" => Some(Form::Len),
        b"pop" => Some(Form::Pop),
        b"own" => Some(Form::Own),
        b"cap" => Some(Form::Cap),
        _ => None,
    }
}

/// The form whose first word has four letters.
#[inline(always)]
fn form_of_four(word: &[u8]) -> Option<Form>
    requires { length word.now ≡ 4 }
    ensures { Reads (λ f. Unit {0}) name_of word.now result }
{
    match word {
        b"host" => Some(Form::Host),
        b"elem" => Some(Form::Elem),
        b"data" => Some(Form::HostNumber),
        b"setf" => Some(Form::SetField),
        b"sete" => Some(Form::SetElem),
        b"push" => Some(Form::Push),
        b"load" => Some(Form::Load),
        b"gset" => Some(Form::SetGlobal),
        b"gget" => Some(Form::GetGlobal),
        b"root" => Some(Form::Root),
        b"take" => Some(Form::Take),
        b"grow" => Some(Form::Grow),
        _ => None,
    }
}

/// The form whose first word has five letters.
#[inline(always)]
fn form_of_five(word: &[u8]) -> Option<Form>
    requires { length word.now ≡ 5 }
    ensures { Reads (λ f. Unit {0}) name_of word.now result }
{
    match word {
        b"array" => Some(Form::Array),
        b"fixed" => Some(Form::Fixed),
        b"bytes" => Some(Form::Bytes),
        b"field" => Some(Form::Field),
        b"enter" => Some(Form::Enter),
        b"leave" => Some(Form::Leave),
        b"store" => Some(Form::Store),
        b"throw" => Some(Form::Throw),
        b"gcinc" => Some(Form::GcInc),
        _ => None,
    }
}

/// The form whose first word has six letters.
#[inline(always)]
fn form_of_six(word: &[u8]) -> Option<Form>
    requires { length word.now ≡ 6 }
    ensures { Reads (λ f. Unit {0}) name_of word.now result }
{
    match word {
        b"struct" => Some(Form::Struct),
        b"newexn" => Some(Form::NewExn),
        b"newarr" => Some(Form::NewArr),
        b"unroot" => Some(Form::Unroot),
        b"gcdrop" => Some(Form::GcDrop),
        _ => None,
    }
}
