//! Where a heap has its memory: attached, taken out so that it can grow, or nowhere.

ghost use Rattle.std.specs.Prelude.{◌≡◌};
ghost use Rattle.gc_heap.specs.Backings.{IsAttached, GivesAway, TakesOut, objects_in};

use gc_memory::HeapMemory;
use std::mem;

/// The memory of a heap, with what the heap knows of it.
pub trait HeapSpace: Drop {
    ghost use Rattle.std.specs.Prelude.{ℕ, ◌≡◌, List};

    /// What the heap knows of its memory while that is out.
    type Marks: Drop;

    /// The memory.
    ghost memory: { Self → List ℕ };

    /// What is known of it.
    ghost marks: { Self → Self.Marks };

    /// How many objects lie in it.
    ghost objects: { Self → ℕ };

    /// Takes the memory out.
    fn into_memory(self) -> (HeapMemory, Self::Marks)
        ensures { result ≡ (memory self, marks self) };

    /// How many objects lie in the memory.
    fn object_count(&self) -> u64
        ensures { result ≡ objects self.now };
}

/// Where a heap has its memory.
#[derive(Drop)]
pub enum Backing<S, M> {
    Detached,
    Attached(S),
    /// The memory is out, so that it can grow.
    Taken(M),
}

impl<S: HeapSpace> Backing<S, S::Marks> {
    /// How many objects lie in the memory; none where it isn't attached.
    pub fn object_count(&self) -> u64
        ensures { result ≡ objects_in S.objects self.now }
    {
        match self {
            Backing::Attached(space) => space.object_count(),
            _ => 0,
        }
    }

    /// Gives the memory away.
    pub fn detach(&mut self) -> HeapMemory
        requires { IsAttached self.old }
        ensures given { GivesAway S.memory self.old result }
        ensures detached { self.new ≡ Backing.Detached }
    {
        match mem::replace(self, Backing::Detached) {
            Backing::Attached(space) => space.into_memory().0,
            _ => unreachable!(),
        }
    }

    /// Hands the memory out, so that it can grow.
    pub fn take(&mut self) -> HeapMemory
        requires { IsAttached self.old }
        ensures { TakesOut S.memory S.marks self.old self.new result }
    {
        match mem::replace(self, Backing::Detached) {
            Backing::Attached(space) => {
                let (memory, marks) = space.into_memory();
                *self = Backing::Taken(marks);
                memory
            }
            _ => unreachable!(),
        }
    }
}
