//! What the first word of a row says.

/// What a row does.
#[derive(Clone, Copy)]
pub(crate) enum Does {
    Starts(Start),
    Makes(Make),
    Changes(Change),
    Collects,
    Looks(Look),
}

/// What a row does with new heaps.
#[derive(Clone, Copy)]
pub(crate) enum Start {
    Heaps,
    Store,
    Keep,
    Scopes,
    Collections,
}

/// What a row makes.
#[derive(Clone, Copy)]
pub(crate) enum Make {
    Struct,
    Array,
    Host,
    Number,
    Copy,
    Show,
    Chain,
}

/// What a row changes.
#[derive(Clone, Copy)]
pub(crate) enum Change {
    Link,
    Clear,
    Put,
    Drop,
    Leave,
    Grow,
}

/// What a row looks at.
#[derive(Clone, Copy)]
pub(crate) enum Look {
    Count,
    Heap,
    See,
    Same,
    At,
    Header,
    Data,
    Raw,
    Refused,
}

/// What a row does that begins with a word.
pub(crate) const WORDS: [(&str, Does); 28] = [
    ("gc", Does::Collects),
    ("heaps", Does::Starts(Start::Heaps)),
    ("store", Does::Starts(Start::Store)),
    ("keep", Does::Starts(Start::Keep)),
    ("scopes", Does::Starts(Start::Scopes)),
    ("collections", Does::Starts(Start::Collections)),
    ("struct", Does::Makes(Make::Struct)),
    ("array", Does::Makes(Make::Array)),
    ("host", Does::Makes(Make::Host)),
    ("number", Does::Makes(Make::Number)),
    ("copy", Does::Makes(Make::Copy)),
    ("show", Does::Makes(Make::Show)),
    ("chain", Does::Makes(Make::Chain)),
    ("link", Does::Changes(Change::Link)),
    ("clear", Does::Changes(Change::Clear)),
    ("put", Does::Changes(Change::Put)),
    ("drop", Does::Changes(Change::Drop)),
    ("leave", Does::Changes(Change::Leave)),
    ("grow", Does::Changes(Change::Grow)),
    ("count", Does::Looks(Look::Count)),
    ("heap", Does::Looks(Look::Heap)),
    ("see", Does::Looks(Look::See)),
    ("same", Does::Looks(Look::Same)),
    ("at", Does::Looks(Look::At)),
    ("header", Does::Looks(Look::Header)),
    ("data", Does::Looks(Look::Data)),
    ("raw", Does::Looks(Look::Raw)),
    ("refused", Does::Looks(Look::Refused)),
];
