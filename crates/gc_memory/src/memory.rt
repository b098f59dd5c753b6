//! The memory of a heap.

ghost use Rattle.std.specs.Prelude.{◌≡◌, ◌+◌, ◌*◌, ◌/◌, ◌%◌, ◌⊎◌, ◌≤◌, ◌<◌, ◌^◌, ◌++◌, length, take, drop, IfOk, OnOk, OnErr, replicate};
ghost use Rattle.gc_refs.specs.Header.{header_bytes};
ghost use Rattle.gc_view.specs.Pages.{page, max_pages};
ghost use Rattle.gc_view.specs.Bytes.{u32_at, put_u32};
ghost use Rattle.gc_view.specs.Bytes.{put_bytes};
ghost use Rattle.gc_memory.specs.Words.{AreBytes, u64_at, put_u64};
ghost use Rattle.gc_memory.specs.Changes.{Wrote};
ghost use Rattle.std.specs.Borrow.{sem};
ghost use Rattle.gc_memory.specs.Lends.{LendsBytes};

use gc_refs::VMGcHeader;
use std::alloc::{AllocError, Global};
use std::marker::Model;

/// Bytes of a page.
pub const PAGE: usize = 65_536;

/// The greatest number of pages of a heap.
pub const MAX_PAGES: u32 = 65_535;

/// How many bytes `copy_blocks` copies as one.
pub const BLOCK: usize = 16;

/// The bytes of a heap, in whole pages. Contracts see them as a list.
#[derive(Drop)]
pub struct HeapMemory {
    pages: u32,
    bytes: Vec<u8>,
}

impl Model for HeapMemory {
    ghost use Rattle.std.specs.Prelude.{◌≡◌, ◌*◌, ◌≤◌, List, ℕ, length};
    ghost use Rattle.gc_view.specs.Pages.{page, max_pages};

    ghost Value = { List ℕ };

    ghost view = { λ m. m.bytes.items };

    ghost invariant = { λ m. (length m.bytes.items ≡ page * m.pages) × (m.pages ≤ max_pages) };
}

/// The N bytes from an offset on, read as one.
#[inline(always)]
fn bytes_at<const N: usize>(bytes: &[u8], at: usize) -> [u8; N]
    requires { at + N ≤ length bytes.now }
    ensures { result ≡ take N (drop at bytes.now) }
{
    let mut part = [0; N];
    part.copy_from_slice(&bytes[at..at + N]);
    part
}

/// The 32-bit number at an offset, its lowest byte first.
#[inline(always)]
fn word_at(bytes: &[u8], at: usize) -> u32
    requires { at + 4 ≤ length bytes.now }
    ensures { result ≡ u32_at bytes.now at }
{
    u32::from_le_bytes(bytes_at(bytes, at))
}

/// The same slice. A function that is given one knows that each of its numbers is a byte.
fn known_bytes(bytes: &[u8]) -> &[u8]
    ensures value { result.now ≡ bytes.now }
    ensures fits { AreBytes bytes.now }
{
    bytes
}

impl HeapMemory {
    /// That many pages, whose bytes are 0.
    pub fn new(alloc: Global, pages: u32) -> Result<HeapMemory, AllocError>
        requires { pages ≤ max_pages }
        ensures { IfOk result (λ m. m ≡ replicate (page * pages) 0) }
    {
        let bytes = vec![in alloc; 0; PAGE * pages as usize]?;
        Ok(HeapMemory { pages, bytes })
    }

    /// Adds that many pages, whose bytes are 0. Its time is linear in the bytes that are added, and
    /// amortised in those that there are, which may have to move.
    pub fn grow(&mut self, pages: u32) -> Result<(), AllocError>
        requires { length self.old + page * pages ≤ page * max_pages }
        ensures grown { OnOk result (self.new ≡ self.old ++ replicate (page * pages) 0) }
        ensures longer { OnOk result (length self.new ≡ length self.old + page * pages) }
        ensures kept { OnErr result (self.new ≡ self.old) }
    {
        let total = self.pages + pages;
        self.bytes.resize(PAGE * total as usize, 0)?;
        self.pages = total;
        Ok(())
    }

    /// How many pages there are.
    pub fn pages(&self) -> u32
        ensures size { page * result ≡ length self.now }
        ensures bound { result ≤ max_pages }
    {
        self.pages
    }

    /// How many bytes there are.
    pub fn byte_size(&self) -> usize
        ensures { result ≡ length self.now }
    {
        self.bytes.len()
    }

    /// How many bytes there are. Each place of a memory fits 32 bits.
    pub fn capacity(&self) -> u32
        ensures { result ≡ length self.now }
    {
        self.pages * PAGE as u32
    }

    /// The bytes.
    pub fn bytes(&self) -> &[u8]
        ensures value { result.now ≡ self.now }
        ensures bound { length self.now ≤ page * max_pages }
        ensures fits { AreBytes self.now }
    {
        known_bytes(&self.bytes)
    }

    /// Lends all bytes for writing.
    pub fn bytes_mut(&mut self) -> &mut [u8]
        ensures* writes_back { sem 𝓛 (LendsBytes self.entry result) }
        ensures value { result.now ≡ self.old }
    {
        self.bytes.as_mut_slice()
    }

    /// Lends `count` bytes from an offset on.
    pub fn slice(&self, at: usize, count: usize) -> &[u8]
        requires { at + count ≤ length self.now }
        ensures { result.now ≡ take count (drop at self.now) }
    {
        &self.bytes[at..at + count]
    }

    /// Writes these bytes at an offset.
    pub fn write_bytes(&mut self, at: usize, bytes: &[u8])
        requires { at + length bytes.now ≤ length self.old }
        ensures bytes { self.new ≡ put_bytes self.old at bytes.now }
        ensures same_length { length self.new ≡ length self.old }
    {
        self.bytes[at..at + bytes.len()].copy_from_slice(bytes);
    }

    /// Makes N bytes from an offset on 0, as one write.
    #[inline(always)]
    fn zero_bytes<const N: usize>(&mut self, at: usize)
        requires { at + N ≤ length self.old }
        ensures bytes { self.new ≡ put_bytes self.old at (replicate N 0) }
        ensures same_length { length self.new ≡ length self.old }
    {
        self.bytes[at..at + N].copy_from_slice(&[0; N]);
    }

    /// Makes a range 0 that N bytes at its front and N at its end cover.
    #[inline(always)]
    fn zero_ends<const N: usize>(&mut self, at: usize, count: usize)
        requires least { N ≤ count }
        requires most { count ≤ 2 * N }
        requires room { at + count ≤ length self.old }
        ensures bytes { self.new ≡ put_bytes self.old at (replicate count 0) }
        ensures same_length { length self.new ≡ length self.old }
    {
        // The proof learns from it that a memory ends below 2^32, so that the sum fits.
        let _pages = &self.pages;
        self.zero_bytes::<N>(at);
        self.zero_bytes::<N>(at + count - N);
    }

    /// Makes `count` bytes from an offset on 0, in time linear in `count`.
    // A few by a write at each end, which may overlap: a fill of a number of bytes that varies is a call.
    #[inline(always)]
    pub fn fill_zero(&mut self, at: usize, count: usize)
        requires { at + count ≤ length self.old }
        ensures bytes { self.new ≡ put_bytes self.old at (replicate count 0) }
        ensures same_length { length self.new ≡ length self.old }
    {
        match count {
            4..=8 => self.zero_ends::<4>(at, count),
            9..=16 => self.zero_ends::<8>(at, count),
            17..=32 => self.zero_ends::<16>(at, count),
            33..=64 => self.zero_ends::<32>(at, count),
            _ => self.bytes[at..at + count].fill(0),
        }
    }

    /// Copies `count` bytes to another place, also where the two overlap, in time linear in `count`.
    pub fn move_bytes(&mut self, from: usize, to: usize, count: usize)
        requires source { from + count ≤ length self.old }
        requires destination { to + count ≤ length self.old }
        ensures bytes { self.new ≡ put_bytes self.old to (take count (drop from self.old)) }
        ensures same_length { length self.new ≡ length self.old }
    {
        self.bytes.copy_within(from..from + count, to);
    }

    /// Copies a block to another place.
    #[inline(always)]
    fn copy_block(&mut self, from: usize, to: usize)
        requires source { from + 16 ≤ length self.old }
        requires destination { to + 16 ≤ length self.old }
        ensures bytes { self.new ≡ put_bytes self.old to (take 16 (drop from self.old)) }
        ensures same_length { length self.new ≡ length self.old }
    {
        let block: [u8; BLOCK] = bytes_at(&self.bytes, from);
        self.bytes[to..to + BLOCK].copy_from_slice(&block);
    }

    /// Copies `count` bytes, in whole blocks, to a place that has none of them, in time linear in `count`.
    #[inline(always)]
    pub fn copy_blocks(&mut self, from: usize, to: usize, count: usize)
        requires source { from + count ≤ length self.old }
        requires destination { to + count ≤ length self.old }
        requires apart { (from + count ≤ to) ⊎ (to + count ≤ from) }
        requires whole { count % 16 ≡ 0 }
        ensures bytes { self.new ≡ put_bytes self.old to (take count (drop from self.old)) }
        ensures same_length { length self.new ≡ length self.old }
    {
        // The proof learns from it that a memory ends below 2^32, so that the sums fit.
        let _pages = &self.pages;
        for index in 0..count / BLOCK {
            self.copy_block(from + BLOCK * index, to + BLOCK * index);
        }
    }

    /// The N bytes from an offset on.
    #[inline(always)]
    pub fn read_bytes<const N: usize>(&self, at: usize) -> [u8; N]
        requires { at + N ≤ length self.now }
        ensures { result ≡ take N (drop at self.now) }
    {
        bytes_at(&self.bytes, at)
    }

    /// The 32-bit number at an offset, its lowest byte first.
    #[inline(always)]
    pub fn read_u32(&self, at: usize) -> u32
        requires { at + 4 ≤ length self.now }
        ensures { result ≡ u32_at self.now at }
    {
        word_at(&self.bytes, at)
    }

    /// Writes a 32-bit number at an offset, its lowest byte first.
    #[inline(always)]
    pub fn write_u32(&mut self, at: usize, value: u32)
        requires { at + 4 ≤ length self.old }
        ensures bytes { self.new ≡ put_u32 self.old at value }
        ensures same_length { length self.new ≡ length self.old }
    {
        self.bytes[at..at + 4].copy_from_slice(&value.to_le_bytes());
    }

    /// The 64-bit number at an offset, its lowest byte first.
    #[inline(always)]
    pub fn read_u64(&self, at: usize) -> u64
        requires { at + 8 ≤ length self.now }
        ensures { result ≡ u64_at self.now at }
    {
        u64::from_le_bytes(bytes_at(&self.bytes, at))
    }

    /// Writes a 64-bit number at an offset, its lowest byte first.
    pub fn write_u64(&mut self, at: usize, value: u64)
        requires { at + 8 ≤ length self.old }
        ensures bytes { self.new ≡ put_u64 self.old at value }
        ensures same_length { length self.new ≡ length self.old }
    {
        self.bytes[at..at + 8].copy_from_slice(&value.to_le_bytes());
    }

    /// The header that the two words at an offset are.
    #[inline(always)]
    pub fn read_header(&self, at: usize) -> VMGcHeader
        requires { at + 8 ≤ length self.now }
        ensures { result ≡ record { kind_word = u32_at self.now at; type_word = u32_at self.now (at + 4) } }
    {
        VMGcHeader::from_words(word_at(&self.bytes, at), word_at(&self.bytes, at + 4))
    }

    /// Writes a header at an offset: its kind word, and behind it its type word.
    pub fn write_header(&mut self, at: usize, header: VMGcHeader)
        requires { at + 8 ≤ length self.old }
        ensures bytes { self.new ≡ put_bytes self.old at (header_bytes header) }
        ensures kind_word { u32_at self.new at ≡ header.kind_word }
        ensures type_word { u32_at self.new (at + 4) ≡ header.type_word }
        ensures around { Wrote self.old self.new at 8 }
        ensures same_length { length self.new ≡ length self.old }
    {
        // The proof learns from it that a memory ends below 2^32, so that the sum fits.
        let _pages = &self.pages;
        self.write_u32(at, header.kind_word());
        self.write_u32(at + 4, header.type_index().as_u32());
    }
}
