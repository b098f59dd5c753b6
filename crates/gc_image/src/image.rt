//! An image: its types, its objects and its globals.

ghost use Rattle.std.specs.Prelude.{◌≡◌};
ghost use Rattle.gc_image.specs.Parts.{ImageParts};

use gc_commands::{ByteText, Command};
use gc_owner::GcClass;
use gc_refs::V128;
use gc_types::Tag;
use std::marker::Model;

/// What a reference of an image names.
#[derive(Clone, Copy, Debug, PartialEq, Eq)]
pub enum ImageReference {
    /// Nothing.
    Null,
    /// A small integer, below 2^31.
    Small(u32),
    /// The object with that number, counted from 0.
    Object(usize),
}

/// A value of an object or of a global. Floating-point numbers and vectors are their bits.
#[derive(Clone, Copy, Debug, PartialEq, Eq)]
pub enum ImageValue {
    I32(i32),
    I64(i64),
    F32(u32),
    F64(u64),
    V128(V128),
    Ref(GcClass, ImageReference),
}

/// Values of an object, in order.
#[derive(Debug, Drop)]
pub struct ImageValues {
    values: Vec<ImageValue>,
}

impl Model for ImageValues {
    ghost use Rattle.std.specs.Prelude.{List};
    ghost use Rattle.gc_image.specs.declared.image.ImageValue.{ImageValue};

    ghost Value = { List ImageValue };

    ghost view = { λ v. v.values.items };
}

impl ImageValues {
    /// These values. Takes no memory.
    pub fn from_vec(values: Vec<ImageValue>) -> ImageValues
        ensures { result ≡ values.items }
    {
        ImageValues { values }
    }

    /// The values.
    pub fn as_slice(&self) -> &[ImageValue]
        ensures { result.now ≡ self.now }
    {
        self.values.as_slice()
    }
}

/// One object of an image.
#[derive(Debug, Drop)]
pub enum ObjectLine {
    /// `s T V*`: a struct of type `ty`.
    Struct {
        ty: u32,
        values: ImageValues,
    },
    /// `a T V*`: an array of type `ty`, whose elements are not 8 bits wide.
    Array {
        ty: u32,
        values: ImageValues,
    },
    /// `b T HEX`: an array of 8-bit elements.
    Bytes {
        ty: u32,
        bytes: ByteText,
    },
    /// `h N`: a host object with the number `number`.
    Host {
        number: u64,
    },
    /// `e T I G V*`: an exception of type `ty` with the tag of instance I and index G.
    Exn {
        ty: u32,
        tag: Tag,
        values: ImageValues,
    },
}

/// `global K V`: what the global with that index holds.
#[derive(Clone, Copy, Debug, PartialEq, Eq)]
pub struct GlobalLine {
    pub index: u16,
    pub value: ImageValue,
}

/// An image. Its types are commands that declare one each.
#[derive(Debug, Drop)]
pub struct Image {
    types: Vec<Command>,
    objects: Vec<ObjectLine>,
    globals: Vec<GlobalLine>,
}

impl Model for Image {
    ghost use Rattle.gc_image.specs.Parts.{ImageParts};

    ghost Value = { ImageParts };

    ghost view = { λ i. record { types = i.types.items; objects = i.objects.items; globals = i.globals.items } };
}

impl Image {
    /// The image with these types, objects and globals. Takes no memory.
    pub fn new(types: Vec<Command>, objects: Vec<ObjectLine>, globals: Vec<GlobalLine>) -> Image
        ensures { result ≡ record { types = types.items; objects = objects.items; globals = globals.items } }
    {
        Image {
            types,
            objects,
            globals,
        }
    }

    /// The types, in order, each as the command that declares it.
    pub fn types(&self) -> &[Command]
        ensures { result.now ≡ self.now.types }
    {
        self.types.as_slice()
    }

    /// The objects by their numbers.
    pub fn objects(&self) -> &[ObjectLine]
        ensures { result.now ≡ self.now.objects }
    {
        self.objects.as_slice()
    }

    /// The globals, in the order of their lines.
    pub fn globals(&self) -> &[GlobalLine]
        ensures { result.now ≡ self.now.globals }
    {
        self.globals.as_slice()
    }
}
