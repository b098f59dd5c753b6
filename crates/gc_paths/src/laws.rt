//! A law of reports.

ghost use Rattle.std.specs.Prelude.{◌↔◌, ℕ, List, true};
ghost use Rattle.std.specs.List.{Contains};
ghost use Rattle.gc_types.specs.declared.kind.Layouts.TheVariants.{Copying};
ghost use Rattle.gc_model.specs.Reach.{IsKept};
ghost use Rattle.gc_model.specs.Table.{Table};
ghost use Rattle.gc_model.specs.Words.{Placing};
ghost use Rattle.gc_paths.specs.Reports.{IsReport, Told, positions};

/// A report from all roots tells of an object exactly where a collection of a copying heap would keep it.
pub fn reports_tell_what_is_kept<D: Drop>()
    ensures { (t : Table D) (place : Placing) (told : List Told) (p : ℕ) → IsReport true t place told
        → Contains (positions told) p ↔ IsKept Copying t p }
{}
