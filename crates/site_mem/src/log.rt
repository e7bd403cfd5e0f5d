//! The calls made, and those that are to fail.
ghost use Rattle.std.specs.Prelude.{◌≡◌, ◌≢◌, ◌≤◌, ◌⊎◌, ◌↔◌, [], ◌∷◌, ◌++◌, IsTrue, None, OnOk, OnErr};
ghost use Rattle.site_mem.specs.Counts.{risen};
ghost use Rattle.site_mem.specs.Turn.{IsPast, IsTurn, IsNoted};

use crate::call::Call;
use std::alloc::{AllocError, Global};

/// The calls made, in order, how many steps there were before each, the numbers of those that are to fail once, the number
/// from which on all fail, and the number of the next one.
#[derive(Drop)]
pub struct Log {
    pub calls: Vec<Call>,
    pub marks: Vec<usize>,
    pub fails: Vec<u64>,
    pub stop: Option<u64>,
    pub next: u64,
}

/// What is to become of a call.
#[derive(Clone, Copy)]
pub enum Turn {
    /// It does what it was asked for.
    Goes,
    /// It fails, since its number was named.
    Fails,
    /// It fails and changes nothing, since the machine has stopped.
    Stops,
    /// It fails, since there is no memory to note it.
    Starves,
}

impl Log {
    /// No calls.
    pub fn new(alloc: Global) -> Log
        ensures calls { result.calls.items ≡ [] }
        ensures marks { result.marks.items ≡ [] }
        ensures fails { result.fails.items ≡ [] }
        ensures stop { result.stop ≡ None }
        ensures next { result.next ≡ 0 }
    {
        Log {
            calls: Vec::new(alloc),
            marks: Vec::new(alloc),
            fails: Vec::new(alloc),
            stop: None,
            next: 0,
        }
    }

    /// Notes a call, with how many steps there are before it, and answers what is to become of it.
    pub fn begin(&mut self, call: Call, steps: usize) -> Turn
        ensures turn { IsTurn self.old.stop self.old.fails.items self.old.next result }
        ensures calls { IsNoted result call self.old.calls.items self.new.calls.items }
        ensures marks { IsNoted result steps self.old.marks.items self.new.marks.items }
        ensures next { self.new.next ≡ risen self.old.next }
        ensures fails { self.new.fails ≡ self.old.fails }
        ensures stop { self.new.stop ≡ self.old.stop }
    {
        let number = self.next;
        self.next = number.saturating_add(1);
        if self.note(call, steps).is_err() {
            return Turn::Starves;
        }
        turn_of(self.stop, &self.fails, number)
    }

    // Both, or neither of them.
    fn note(&mut self, call: Call, steps: usize) -> Result<(), AllocError>
        ensures calls { OnOk result (self.new.calls.items ≡ self.old.calls.items ++ call ∷ []) }
        ensures marks { OnOk result (self.new.marks.items ≡ self.old.marks.items ++ steps ∷ []) }
        ensures err { OnErr result
            ((self.new.calls.items ≡ self.old.calls.items) × (self.new.marks.items ≡ self.old.marks.items)) }
        ensures next { self.new.next ≡ self.old.next }
        ensures fails { self.new.fails ≡ self.old.fails }
        ensures stop { self.new.stop ≡ self.old.stop }
    {
        self.marks.reserve(1)?;
        self.calls.push(call)?;
        self.marks.push(steps)?;
        Ok(())
    }
}

fn turn_of(stop: Option<u64>, fails: &[u64], number: u64) -> Turn
    ensures turn { IsTurn stop fails.now number result }
    ensures fed { result ≢ Turn.Starves }
{
    if is_past(stop, number) {
        return Turn::Stops;
    }
    if fails.contains(&number) {
        return Turn::Fails;
    }
    Turn::Goes
}

fn is_past(stop: Option<u64>, number: u64) -> bool
    ensures { IsTrue result ↔ IsPast stop number }
{
    match stop {
        Some(stop) => stop <= number,
        None => false,
    }
}
