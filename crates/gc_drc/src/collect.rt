//! The collection of a counting heap, in three increments. None takes memory.
//!
//! Between them and inside them the count word of an object is its names, plus one for each of the two
//! lists that it is on, and it is above 0.
//!
//! Before the first increment the counts are exact: the names by held objects and by roots that are no
//! frame slots. What frame slots name is shown. Nothing is marked.
//!
//! 1. `mark_frames` marks what frame slots name, and changes nothing else.
//! 2. `free_unheld` takes each object that isn't marked off the list of shown words, which may queue it,
//!    and clears the marks; at each step the flags on the list get fewer. Then it frees what is queued,
//!    with its host value, and lowers what that named; at each step there are fewer objects, or fewer
//!    that are queued. Counts are exact but for the words that are still to be lowered. An object is
//!    freed when no root names it and all that named it are gone: so what is freed is the least set of
//!    these. What is kept has a count, and so a holder that is kept, or a root.
//! 3. `free_unreached` frees the cycles that are left. It marks what the roots reach: what a marked
//!    object names is marked, or that object waits to be scanned, and at each step there are fewer that
//!    aren't marked, or fewer that wait. Where some are left that aren't marked, a walk over the blocks frees
//!    them and takes their names off marked objects; no count comes to 0, as a marked object has a name by
//!    a marked one or by a root. Another walk clears the marks.
//!
//! After the second and after the third the counts are exact, shown is what frame slots name, and nothing
//! is queued or marked.

pub(crate) mod cascade;
pub(crate) mod clear;
pub(crate) mod counts;
pub(crate) mod hosts;
pub(crate) mod increments;
pub(crate) mod lists;
pub(crate) mod marks;
pub(crate) mod phase;
pub(crate) mod release;
pub(crate) mod sweep;
pub(crate) mod trace;
pub(crate) mod visit;
pub(crate) mod walk;
