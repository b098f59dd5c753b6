//! What an owner keeps of each root.

/// The class of a reference: which of the three hierarchies that hold objects it belongs to.
#[derive(Clone, Copy, Debug, PartialEq, Eq, Hash)]
pub enum GcClass {
    Any,
    Extern,
    Exn,
}

/// A scoped root.
#[derive(Clone, Copy, Debug, PartialEq, Eq)]
pub struct RootEntry {
    /// How many scope ends had dropped a root when it was pushed.
    pub generation: u64,
    /// The word of the reference; 0 is null.
    pub word: u32,
}

/// An owned root.
#[derive(Clone, Copy, Debug, PartialEq, Eq)]
pub struct OwnedEntry {
    /// How many owned roots were made before it; its handles name it so.
    pub number: u64,
    /// How many handles of it there are.
    pub handles: u32,
    /// The word of the reference; 0 is null.
    pub word: u32,
}

/// A slot of a frame, or a global.
#[derive(Clone, Copy, Debug, PartialEq, Eq)]
pub struct SlotEntry {
    pub class: GcClass,
    /// The word of the reference; 0 is null.
    pub word: u32,
}

/// An entry that has the word of a root.
pub(crate) trait HoldsWord: Copy {
    ghost use Rattle.std.specs.Prelude.{ℕ, ◌≡◌};

    /// The word.
    ghost word_of: { Self → ℕ };

    /// The entry with another word.
    ghost put_word: { Self → ℕ → Self };

    /// The word.
    fn word(&self) -> u32
        ensures { result ≡ word_of self.now };

    /// The entry with another word.
    fn with_word(&self, word: u32) -> Self
        ensures { result ≡ put_word self.now word };
}

impl HoldsWord for RootEntry {
    ghost word_of = { λ e. e.word };

    ghost put_word = { λ e w. record e { word = w } };

    fn word(&self) -> u32 {
        self.word
    }

    fn with_word(&self, word: u32) -> RootEntry {
        RootEntry {
            generation: self.generation,
            word,
        }
    }
}

impl HoldsWord for OwnedEntry {
    ghost word_of = { λ e. e.word };

    ghost put_word = { λ e w. record e { word = w } };

    fn word(&self) -> u32 {
        self.word
    }

    fn with_word(&self, word: u32) -> OwnedEntry {
        OwnedEntry {
            number: self.number,
            handles: self.handles,
            word,
        }
    }
}

impl HoldsWord for SlotEntry {
    ghost word_of = { λ e. e.word };

    ghost put_word = { λ e w. record e { word = w } };

    fn word(&self) -> u32 {
        self.word
    }

    fn with_word(&self, word: u32) -> SlotEntry {
        SlotEntry {
            class: self.class,
            word,
        }
    }
}
