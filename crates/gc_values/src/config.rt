//! The configuration of a store.

ghost use Rattle.std.specs.Prelude.{◌≡◌, ◌≤◌, ◌^◌, IfSome, IsSome, ◌↔◌, None};
ghost use Rattle.std.specs.Option.{SomeIff};
ghost use Rattle.gc_view.specs.Pages.{max_pages};

use std::num::NonZeroU32;

/// The greatest number of roots of a kind that a store may be configured for.
pub const MOST_ROOTS: u32 = 0x8000_0000;

/// The maxima of `HeapConfig::with_pages`.
pub const USUAL_ROOTS: u32 = 16_777_216;

/// How a store's heap begins, and how many roots it may have.
#[derive(Clone, Copy, Debug)]
pub struct HeapConfig {
    /// Pages that the heap begins with.
    pub first_pages: u32,
    pub max_scoped: u32,
    pub max_owned: u32,
    /// Where it is n, each n-th allocation collects first.
    pub alloc_counter: Option<NonZeroU32>,
    ghost few_pages: { first_pages ≤ max_pages },
    ghost few_roots: { max_scoped ≤ 2 ^ 31 },
    ghost few_owned: { max_owned ≤ 2 ^ 31 },
}

impl HeapConfig {
    /// A configuration; None exactly where there are more than 65,535 first pages or a maximum is
    /// above 2^31.
    pub fn new(
        first_pages: u32,
        max_scoped: u32,
        max_owned: u32,
        alloc_counter: Option<NonZeroU32>,
    ) -> Option<HeapConfig>
        ensures some { IsSome result ↔ ((first_pages ≤ max_pages) × (max_scoped ≤ 2 ^ 31) × (max_owned ≤ 2 ^ 31)) }
        ensures first { IfSome result (λ c. c.first_pages ≡ first_pages) }
        ensures scoped { IfSome result (λ c. c.max_scoped ≡ max_scoped) }
        ensures owned { IfSome result (λ c. c.max_owned ≡ max_owned) }
        ensures counter { IfSome result (λ c. c.alloc_counter ≡ alloc_counter) }
    {
        if first_pages > 65_535 || max_scoped > MOST_ROOTS || max_owned > MOST_ROOTS {
            return None;
        }
        Some(HeapConfig {
            first_pages,
            max_scoped,
            max_owned,
            alloc_counter,
        })
    }

    /// A configuration with 16,777,216 for both maxima and no counter; None exactly where there are
    /// more than 65,535 first pages.
    pub fn with_pages(first_pages: u32) -> Option<HeapConfig>
        ensures some { IsSome result ↔ (first_pages ≤ max_pages) }
        ensures first { IfSome result (λ c. c.first_pages ≡ first_pages) }
        ensures scoped { IfSome result (λ c. c.max_scoped ≡ USUAL_ROOTS) }
        ensures owned { IfSome result (λ c. c.max_owned ≡ USUAL_ROOTS) }
        ensures counter { IfSome result (λ c. c.alloc_counter ≡ None) }
    {
        HeapConfig::new(first_pages, USUAL_ROOTS, USUAL_ROOTS, None)
    }
}
