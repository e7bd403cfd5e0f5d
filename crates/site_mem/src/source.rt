//! A source over bytes in memory.
ghost use Rattle.std.specs.Prelude.{◌≡◌, ◌<◌, ◌≤◌, ◌+◌, ◌-◌, ◌^◌, min, true, drop, length, IsErr, OnErr, OnOk, IfOk, None, Some};
ghost use Rattle.site_core.specs.Causes.{HasCause};
ghost use Rattle.site_core.specs.Pull.{Gives, MeetsEnd};

use fact_model::Text;
use site_core::{Fault, Source};

/// Bytes in pieces of at most a given length, one pull of which may be made to fail.
#[derive(Drop)]
pub struct MemorySource {
    bytes: Text,
    taken: usize,
    piece: usize,
    fails: Option<u64>,
    next: u64,
    faults: u64,
    ended: u64,
    ghost some: { 0 < piece },
    ghost within: { taken ≤ length bytes },
}

impl MemorySource {
    ghost use Rattle.site_mem.specs.Source.{source_bytes, source_left, source_faults, source_piece, source_number, source_fails, source_ends};

    /// These bytes, at most `piece` of them a pull. It takes no memory.
    pub fn new(bytes: Text, piece: usize) -> MemorySource
        requires { 0 < piece }
        ensures bytes { source_bytes result ≡ bytes }
        ensures left { source_left result ≡ bytes }
        ensures faults { source_faults result ≡ 0 }
        ensures piece { source_piece result ≡ piece }
        ensures number { source_number result ≡ 0 }
        ensures ends { source_ends result ≡ 0 }
        ensures fails { source_fails result ≡ None }
    {
        MemorySource {
            bytes,
            taken: 0,
            piece,
            fails: None,
            next: 0,
            faults: 0,
            ended: 0,
        }
    }

    /// The pull with this number, counted from 0, fails once and gives nothing. A later call replaces the number.
    /// It takes no memory.
    pub fn fail_at(&mut self, pull: u64)
        ensures fails { source_fails self.new ≡ Some pull }
        ensures bytes { source_bytes self.new ≡ source_bytes self.old }
        ensures left { source_left self.new ≡ source_left self.old }
        ensures faults { source_faults self.new ≡ source_faults self.old }
        ensures piece { source_piece self.new ≡ source_piece self.old }
        ensures number { source_number self.new ≡ source_number self.old }
        ensures ends { source_ends self.new ≡ source_ends self.old }
    {
        self.fails = Some(pull);
    }

    /// How many bytes it has given. It takes no memory.
    pub fn given(&self) -> u64
        ensures { result + length (source_left self.now) ≡ length (source_bytes self.now) }
    {
        self.taken as u64
    }
}

impl Source for MemorySource {
    ghost use Rattle.site_mem.specs.Counts.{risen};
    ghost use Rattle.site_mem.specs.Source.{source_left, source_faults, source_piece, source_number, source_ends, pulled, IsPull};

    ghost tells = { true };

    ghost left = { λ s. source_left s };

    ghost faults = { λ s. s.faults };

    ghost pulls = { λ s. source_number s };

    ghost ends = { λ s. source_ends s };

    fn pull(&mut self, into: &mut [u8]) -> Result<usize, Fault>
        requires { 0 < length into.old }
        ensures bound { IfOk result (λ count. count ≤ length into.new) }
        ensures bytes { IfOk result
            (λ count. Gives (source_left self.old) (source_left self.new) count into.new) }
        ensures failed { OnErr result (source_left self.new ≡ source_left self.old) }
        ensures unfilled { OnErr result (into.new ≡ into.old) }
        ensures cause { HasCause (source_faults self.old) (source_faults self.new) result }
        ensures count { IfOk result
            (λ count. count ≡ pulled (source_piece self.old) (length into.old) (source_left self.old)) }
        ensures call { IsPull self.old self.new result }
        ensures one { source_number self.new ≤ source_number self.old + 1 }
        ensures end { MeetsEnd (source_ends self.old) (source_ends self.new) result }
        ensures met { IfOk result (λ count. count ≡ 0 → source_ends self.new ≡ risen (source_ends self.old)) }
    {
        let number = self.next;
        self.next = number.saturating_add(1);
        if self.fails == Some(number) {
            self.fails = None;
            self.faults = self.faults.saturating_add(1);
            return Err(Fault);
        }
        let count = give(self.bytes.as_bytes(), &mut self.taken, self.piece, into);
        if count == 0 {
            self.ended = self.ended.saturating_add(1);
        }
        Ok(count)
    }
}

/// Gives the next piece of the bytes of a source, of which it counts those taken. It takes no memory.
pub fn give(bytes: &[u8], taken: &mut usize, piece: usize, into: &mut [u8]) -> usize
    requires piece { 0 < piece }
    requires some { 0 < length into.old }
    ensures bound { result ≤ length into.new }
    ensures gives { Gives (drop taken.old bytes.now) (drop taken.new bytes.now) result into.new }
    ensures count { result ≡ min piece (min (length into.old) (length (drop taken.old bytes.now))) }
    ensures within { taken.old ≤ length bytes.now → taken.new ≤ length bytes.now }
{
    if *taken >= bytes.len() {
        return 0;
    }
    let rest = &bytes[*taken..];
    let count = piece.min(into.len()).min(rest.len());
    into[..count].copy_from_slice(&rest[..count]);
    *taken += count;
    count
}
