//! What a header's spare bits tell a collection that copies: where the object's references lie.

ghost use Rattle.std.specs.Prelude.{◌≡◌, ◌≢◌, ◌<◌};
ghost use Rattle.gc_refs.specs.Trace.{MeansTrace, HasTraceWord, trace_word, form_of};

/// Bit 23: bits 24 and 23 tell the form, and a bitmap has the bits below them.
const FORM: u32 = 0x0080_0000;

/// Where the references of an object lie, as far as a trace word says it.
///
/// Bits 24 and 23 of the word tell the form, and bits 22 to 0 belong to it. Bit 25 and those above are
/// no part of it.
#[derive(Clone, Copy, Debug, PartialEq, Eq)]
pub enum InlineTraceInfo {
    /// Form 0, a struct or an exception: bit s says that a reference lies at offset `12 + 4 * s`.
    Bitmap(u32),
    /// Form 1, an array: bit 0 says that its elements are references.
    Array(bool),
    /// Form 2: the type of the object tells it.
    OutOfLine,
}

impl InlineTraceInfo {
    /// The word that says this, with every other bit 0. A bitmap has to fit 23 bits.
    pub fn encode(self) -> u32
        requires { HasTraceWord self }
        ensures word { result ≡ trace_word self }
        ensures meaning { MeansTrace result self }
    {
        match self {
            InlineTraceInfo::Bitmap(bits) => bits,
            InlineTraceInfo::Array(elements) => FORM + u32::from(elements),
            InlineTraceInfo::OutOfLine => 2 * FORM,
        }
    }

    /// What a word says, whose bits 24 and 23 may not both be set. The bits that its form doesn't name
    /// are not looked at. `decode` of what `encode` made is what was encoded.
    pub fn decode(word: u32) -> InlineTraceInfo
        requires { form_of word ≢ 3 }
        ensures meaning { MeansTrace word result }
        ensures reads_back { (info : InlineTraceInfo) → HasTraceWord info → word ≡ trace_word info → result ≡ info }
    {
        match word / FORM % 4 {
            0 => InlineTraceInfo::Bitmap(word % FORM),
            1 => InlineTraceInfo::Array(word % 2 == 1),
            _ => InlineTraceInfo::OutOfLine,
        }
    }
}
