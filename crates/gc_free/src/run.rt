//! A run of places.
ghost use Rattle.std.specs.Prelude.{◌≡◌, ◌+◌, ◌-◌, ◌^◌, ◌<◌, ◌≤◌};
ghost use Rattle.gc_free.specs.Runs.{run, end_of, gap};
ghost use Rattle.gc_free.specs.Space.{touches, run_rest, if_any, places_end, first_of_runs};
ghost use Rattle.gc_free.specs.Merged.{join, join_if_any};

/// Every place and every block's size is a multiple of these bytes, which are the first managed place.
pub const ALIGN: u32 = 16;

/// Where the managed places end: at the capacity, or at the greatest u32, rounded down to a multiple
/// of 16.
pub(crate) fn places_end(capacity: usize) -> u32
    ensures { result ≡ places_end capacity }
{
    let reached = match u32::try_from(capacity) {
        Ok(capacity) => capacity,
        Err(_) => u32::MAX,
    };
    reached / ALIGN * ALIGN
}

/// The run from one place up to another, if there is any place between them.
pub(crate) fn run_between(from: u32, to: u32) -> Option<Run>
    ensures { result ≡ first_of_runs (gap from to) }
{
    if from < to {
        Some(Run {
            place: from,
            length: to - from,
        })
    } else {
        None
    }
}

/// `length` bytes that begin at `place`.
#[derive(Clone, Copy, Debug, PartialEq, Eq)]
pub struct Run {
    pub place: u32,
    pub length: u32,
}

impl Run {
    /// The place after the last.
    pub(crate) fn end(self) -> u32
        requires { end_of self < 2 ^ 32 }
        ensures { result ≡ end_of self }
    {
        self.place + self.length
    }

    /// Whether one of the two ends where the other begins.
    pub(crate) fn touches(self, other: Run) -> bool
        requires own_end { end_of self < 2 ^ 32 }
        requires other_end { end_of other < 2 ^ 32 }
        ensures { result ≡ touches self other }
    {
        self.end() == other.place || other.end() == self.place
    }

    /// Two runs that touch, as one.
    pub(crate) fn joined(self, other: Run) -> Run
        requires { self.length + other.length < 2 ^ 32 }
        ensures { result ≡ join self other }
    {
        Run {
            place: self.place.min(other.place),
            length: self.length + other.length,
        }
    }

    /// A block of `size` bytes at the front.
    pub(crate) fn front(self, size: u32) -> Run
        ensures { result ≡ run self.place size }
    {
        Run {
            place: self.place,
            length: size,
        }
    }

    /// The run, if it has any places.
    pub(crate) fn if_any(self) -> Option<Run>
        ensures { result ≡ if_any self }
    {
        if 0 < self.length { Some(self) } else { None }
    }

    /// What is left behind a block of `size` bytes at the front.
    pub(crate) fn rest(self, size: u32) -> Run
        requires fits { size ≤ self.length }
        requires own_end { end_of self < 2 ^ 32 }
        ensures { result ≡ run_rest size self }
    {
        Run {
            place: self.place + size,
            length: self.length - size,
        }
    }
}
