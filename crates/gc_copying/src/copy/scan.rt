//! Scanning one copy: each of its references is moved.

ghost use Rattle.std.specs.Prelude.{ℕ, ◌≡◌, ◌+◌, ◌<◌, ◌≤◌, List, length, ◌∷◌, IfSome, IfNone};
ghost use Rattle.gc_refs.specs.Trace.{form_unit};
ghost use Rattle.gc_heap.specs.References.{word_offsets};
ghost use Rattle.gc_copying.specs.CopyWords.{bitmap_places, element_places, info_places, copying_offsets_at};
ghost use Rattle.gc_memory.specs.Words.{word};
ghost use Rattle.gc_types.specs.Layouts.{trace_at};
ghost use Rattle.gc_copying.specs.CopyStart.{From};
ghost use Rattle.gc_copying.specs.CopySteps.{SameSides, Scanning, CanScanCopy, CanScanAt, Scans, ScansAll, CanWork, WorkAt, Works, WorksOn};
ghost use Rattle.gc_heap.specs.Collection.{objects_per_increment};

use crate::space::{ARRAY_LENGTH, FIRST_ELEMENT, FIRST_FIELD, OBJECTS_PER_INCREMENT, Space};
use gc_memory::offsets::COPYING_SIZE;
use gc_refs::InlineTraceInfo;
use gc_steps::Steps;
use gc_types::{Layouts, TraceInfo, Types, VMSharedTypeIndex};
use std::sync::ledger::Ledger;

impl Space {
    /// Moves the reference at an offset of a copy, which counts a step.
    #[inline(always)]
    fn scan_field<G: Ledger>(&mut self, copy: u32, offset: u32, steps: &mut Steps<G>)
        requires { CanScanAt self.old copy offset }
        ensures scanned { (s : From) (p u : ℕ) (left : List ℕ) → Scanning s p copy u (offset ∷ left) self.old
            → Scans s p copy (offset + 4) left self.old self.new }
        ensures sides { SameSides self.old self.new }
        ensures ticks { steps.new + self.old.objects ≡ steps.old + self.new.objects + 1 }
        ensures rises { steps.old ≤ steps.new }
    {
        let at = (copy + offset) as usize;
        let reference = self.memory.read_u32(at);
        steps.tick();
        let moved = self.forward(reference, steps);
        self.memory.write_u32(at, moved);
    }

    /// Moves the references that a bitmap names: bit s the word at 12 + 4 * s.
    #[inline(always)]
    fn scan_bitmap<G: Ledger>(&mut self, copy: u32, bits: u32, steps: &mut Steps<G>)
        requires left { CanScanCopy self.old copy (bitmap_places bits) }
        requires bits { bits < form_unit }
        ensures scanned { (s : From) (p u : ℕ) → Scanning s p copy u (bitmap_places bits) self.old → ScansAll s p copy self.old self.new }
        ensures sides { SameSides self.old self.new }
        ensures ticks { steps.new + self.old.objects ≡ steps.old + self.new.objects + length (bitmap_places bits) }
        ensures rises { steps.old ≤ steps.new }
    {
        let mut rest = bits;
        let mut offset = FIRST_FIELD;
        while rest != 0 {
            let skipped = rest.trailing_zeros();
            rest >>= skipped;
            offset += 4 * skipped;
            self.scan_field(copy, offset, steps);
            rest /= 2;
            offset += 4;
        }
    }

    /// Moves the elements of an array of so many references.
    fn scan_elements<G: Ledger>(&mut self, copy: u32, count: u32, steps: &mut Steps<G>)
        requires { CanScanCopy self.old copy (word_offsets 16 count) }
        ensures scanned { (s : From) (p u : ℕ) → Scanning s p copy u (word_offsets 16 count) self.old → ScansAll s p copy self.old self.new }
        ensures sides { SameSides self.old self.new }
        ensures ticks { steps.new + self.old.objects ≡ steps.old + self.new.objects + length (word_offsets 16 count) }
        ensures rises { steps.old ≤ steps.new }
    {
        for index in 0..count {
            self.scan_field(copy, FIRST_ELEMENT + 4 * index, steps);
        }
    }

    /// Moves the references at these offsets.
    fn scan_offsets<G: Ledger>(&mut self, copy: u32, offsets: &[u32], steps: &mut Steps<G>)
        requires { CanScanCopy self.old copy offsets.now }
        ensures scanned { (s : From) (p u : ℕ) → Scanning s p copy u offsets.now self.old → ScansAll s p copy self.old self.new }
        ensures sides { SameSides self.old self.new }
        ensures ticks { steps.new + self.old.objects ≡ steps.old + self.new.objects + length offsets.now }
        ensures rises { steps.old ≤ steps.new }
    {
        for offset in offsets {
            self.scan_field(copy, *offset, steps);
        }
    }

    /// Moves the elements of an array, where they are references.
    fn scan_array<G: Ledger>(&mut self, copy: u32, elements: bool, steps: &mut Steps<G>)
        requires { CanScanCopy self.old copy (element_places elements (word self.old.memory (copy + 12))) }
        ensures scanned { (s : From) (p u : ℕ) → Scanning s p copy u (element_places elements (word self.old.memory (copy + 12))) self.old
            → ScansAll s p copy self.old self.new }
        ensures sides { SameSides self.old self.new }
        ensures ticks { steps.new + self.old.objects ≡ steps.old + self.new.objects + length (element_places elements (word self.old.memory (copy + 12))) }
        ensures rises { steps.old ≤ steps.new }
    {
        if elements {
            let count = self.memory.read_u32(copy as usize + ARRAY_LENGTH);
            self.scan_elements(copy, count, steps);
        }
    }

    /// Moves the references that the type of the object tells.
    fn scan_by_type<G: Ledger>(
        &mut self,
        copy: u32,
        ty: VMSharedTypeIndex,
        types: &Types,
        steps: &mut Steps<G>,
    )
        requires { CanScanCopy self.old copy (info_places (word self.old.memory (copy + 12)) (trace_at Layouts.Copying types.now.declarations ty)) }
        ensures scanned { (s : From) (p u : ℕ) → Scanning s p copy u
            (info_places (word self.old.memory (copy + 12)) (trace_at Layouts.Copying types.now.declarations ty)) self.old
            → ScansAll s p copy self.old self.new }
        ensures sides { SameSides self.old self.new }
        ensures ticks { steps.new + self.old.objects ≡ steps.old + self.new.objects + length
            (info_places (word self.old.memory (copy + 12)) (trace_at Layouts.Copying types.now.declarations ty)) }
        ensures rises { steps.old ≤ steps.new }
    {
        match types.trace_info(Layouts::Copying, ty) {
            Some(TraceInfo::Struct { gc_ref_offsets }) => {
                self.scan_offsets(copy, gc_ref_offsets.as_slice(), steps)
            }
            Some(TraceInfo::Array { gc_ref_elems }) => self.scan_array(copy, *gc_ref_elems, steps),
            None => (),
        }
    }

    /// Moves the references of a copy, in the order of their offsets.
    #[inline(always)]
    fn scan_references<G: Ledger>(&mut self, copy: u32, types: &Types, steps: &mut Steps<G>)
        requires { CanScanCopy self.old copy (copying_offsets_at types.now.declarations self.old.memory copy) }
        ensures scanned { (s : From) (p u : ℕ) → Scanning s p copy u (copying_offsets_at types.now.declarations self.old.memory copy) self.old
            → ScansAll s p copy self.old self.new }
        ensures sides { SameSides self.old self.new }
        ensures ticks { steps.new + self.old.objects ≡ steps.old + self.new.objects + length (copying_offsets_at types.now.declarations self.old.memory copy) }
        ensures rises { steps.old ≤ steps.new }
    {
        let header = self.memory.read_header(copy as usize);
        match InlineTraceInfo::decode(header.kind_word()) {
            InlineTraceInfo::Bitmap(bits) => self.scan_bitmap(copy, bits, steps),
            InlineTraceInfo::Array(elements) => self.scan_array(copy, elements, steps),
            InlineTraceInfo::OutOfLine => {
                self.scan_by_type(copy, header.type_index(), types, steps)
            }
        }
    }

    /// Scans the copy at a place, and says where the next one is.
    #[inline(always)]
    fn scan_object<G: Ledger>(&mut self, copy: u32, types: &Types, steps: &mut Steps<G>) -> u32
        requires work { CanWork types.now.declarations self.old copy }
        requires less { copy < self.old.bump }
        ensures scanned { (s : From) (n fields : ℕ) → s.types ≡ types.now.declarations → WorkAt s self.old copy n fields
            → Works s self.old self.new result (n + 1) (fields + length (copying_offsets_at types.now.declarations self.old.memory copy)) }
        ensures behind { copy < result }
        ensures sides { SameSides self.old self.new }
        ensures ticks { steps.new + self.old.objects ≡ steps.old + self.new.objects + length (copying_offsets_at types.now.declarations self.old.memory copy) }
        ensures rises { steps.old ≤ steps.new }
    {
        let size = self.memory.read_u32(copy as usize + COPYING_SIZE as usize);
        self.scan_references(copy, types, steps);
        copy + size
    }

    /// Scans the copies from a place on, at most as many as one increment may. Says where the next one
    /// would be; None where all have been scanned, which it finds only when it looks for one more.
    pub(crate) fn scan_some<G: Ledger>(
        &mut self,
        first: u32,
        types: &Types,
        steps: &mut Steps<G>,
    ) -> Option<u32>
        requires { CanWork types.now.declarations self.old first }
        ensures more { IfSome result (λ next. (s : From) (n fields : ℕ) → s.types ≡ types.now.declarations → WorkAt s self.old first n fields
            → WorksOn s self.old self.new next objects_per_increment n fields steps.old steps.new) }
        ensures behind { IfSome result (λ next. first < next) }
        ensures empty { IfNone result ((done : ℕ) × ((done < objects_per_increment) × ((s : From) (n fields : ℕ) → s.types ≡ types.now.declarations
            → WorkAt s self.old first n fields
            → WorksOn s self.old self.new self.new.bump done n fields steps.old steps.new))) }
        ensures sides { SameSides self.old self.new }
        ensures rises { steps.old ≤ steps.new }
    {
        let mut scan = first;
        for _done in 0..OBJECTS_PER_INCREMENT {
            if scan == self.bump {
                return None;
            }
            scan = self.scan_object(scan, types, steps);
        }
        Some(scan)
    }
}
