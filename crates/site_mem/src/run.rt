//! Runs of places of a file that are all unstable, or all stable, so that no byte of an image has to look at the steps.
ghost use Rattle.std.specs.Prelude.{◌≡◌, ◌<◌, ◌≤◌, ◌++◌, ◌-◌, ℕ, true, false, length, take, drop, vec_len, reverse, OnOk};
ghost use Rattle.lcg.specs.Draw.{state_after};
ghost use Rattle.site_mem.specs.Image.{drawn_bytes};
ghost use Rattle.site_mem.specs.Unstable.{is_torn};

use crate::step::Step;
use crate::tape::Tape;
use lcg::Draws;
use std::alloc::AllocError;

/// Where a run ends, and whether its places are unstable.
#[derive(Clone, Copy)]
struct Run {
    end: usize,
    unstable: bool,
}

impl Tape {
    ghost use Rattle.site_mem.specs.Tape.{tape_stable, tape_unstable, tape_pictured, IsDrawnTo};

    // The run that begins at a place, as far as a length.
    fn run(&self, file: u32, place: usize, length: usize) -> Run
        requires file { file < 4 }
        requires some { place < length }
        ensures some { place < result.end }
        ensures within { result.end ≤ length }
        ensures same { (i : ℕ) → place ≤ i → i < result.end → tape_unstable self.now file i ≡ result.unstable }
    {
        let stable = self.stable_bytes(file).len();
        if stable <= place {
            return Run {
                end: length,
                unstable: true,
            };
        }
        let torn = torn_until(&self.steps, file, place as u64);
        if torn > place as u64 {
            return Run {
                end: length.min(torn as usize),
                unstable: true,
            };
        }
        let whole = whole_until(&self.steps, file, place as u64, stable as u64);
        Run {
            end: length.min(whole as usize),
            unstable: false,
        }
    }

    /// Appends the next run of a file, with this byte at unstable places.
    pub fn push_filled(
        &self,
        file: u32,
        length: usize,
        byte: u8,
        bytes: &mut Vec<u8>,
    ) -> Result<(), AllocError>
        requires file { file < 4 }
        requires some { vec_len bytes.old < length }
        ensures more { OnOk result (vec_len bytes.old < vec_len bytes.new) }
        ensures within { OnOk result (vec_len bytes.new ≤ length) }
        ensures filled { bytes.old.items ≡ tape_pictured self.now file (vec_len bytes.old) (λ i. byte)
            → OnOk result (bytes.new.items ≡ tape_pictured self.now file (vec_len bytes.new) (λ i. byte)) }
    {
        let run = self.run(file, bytes.len(), length);
        if run.unstable {
            return bytes.resize(run.end, byte);
        }
        self.push_stable(file, run.end, bytes)
    }

    /// The same with a drawn byte at each unstable place.
    pub fn push_drawn(
        &self,
        file: u32,
        length: usize,
        draws: &mut Draws,
        bytes: &mut Vec<u8>,
    ) -> Result<(), AllocError>
        requires file { file < 4 }
        requires some { vec_len bytes.old < length }
        ensures more { OnOk result (vec_len bytes.old < vec_len bytes.new) }
        ensures within { OnOk result (vec_len bytes.new ≤ length) }
        ensures drawn { (start : ℕ) → IsDrawnTo self.now file start (vec_len bytes.old) bytes.old.items draws.old.state
            → OnOk result (IsDrawnTo self.now file start (vec_len bytes.new) bytes.new.items draws.new.state) }
    {
        let run = self.run(file, bytes.len(), length);
        if run.unstable {
            return push_draws(run.end, draws, bytes);
        }
        self.push_stable(file, run.end, bytes)
    }

    // Appends the stable bytes up to a place.
    fn push_stable(&self, file: u32, end: usize, bytes: &mut Vec<u8>) -> Result<(), AllocError>
        requires file { file < 4 }
        requires more { vec_len bytes.old ≤ end }
        requires stable { end ≤ length (tape_stable self.now file) }
        ensures bytes { OnOk result (bytes.new.items
            ≡ bytes.old.items ++ take (end - vec_len bytes.old) (drop (vec_len bytes.old) (tape_stable self.now file))) }
        ensures length { OnOk result (vec_len bytes.new ≡ end) }
    {
        let place = bytes.len();
        bytes.extend_from_slice(&self.stable_bytes(file)[place..end])
    }
}

// Appends drawn bytes up to a place.
fn push_draws(end: usize, draws: &mut Draws, bytes: &mut Vec<u8>) -> Result<(), AllocError>
    requires { vec_len bytes.old ≤ end }
    ensures bytes { OnOk result (bytes.new.items
        ≡ bytes.old.items ++ drawn_bytes draws.old.state (end - vec_len bytes.old)) }
    ensures length { OnOk result (vec_len bytes.new ≡ end) }
    ensures state { OnOk result (draws.new.state ≡ state_after draws.old.state (end - vec_len bytes.old)) }
{
    let place = bytes.len();
    for _count in 0..end - place {
        bytes.push((draws.draw() % 256) as u8)?;
    }
    Ok(())
}

// The greatest end of a range that was written since the last sync and has the place, or zero.
fn torn_until(steps: &[Step], file: u32, place: u64) -> u64
    ensures torn { (i : ℕ) → place ≤ i → i < result → is_torn (reverse steps.now) file i ≡ true }
    ensures whole { result ≤ place → is_torn (reverse steps.now) file place ≡ false }
{
    let mut end = 0;
    for step in steps.iter().rev() {
        if step.is_synced() {
            return end;
        }
        end = step.torn_until(file, place).max(end);
    }
    end
}

// The least beginning of such a range past a place that lies in none, or the limit.
fn whole_until(steps: &[Step], file: u32, place: u64, limit: u64) -> u64
    requires whole { is_torn (reverse steps.now) file place ≡ false }
    requires some { place < limit }
    ensures some { place < result }
    ensures within { result ≤ limit }
    ensures whole { (i : ℕ) → place ≤ i → i < result → is_torn (reverse steps.now) file i ≡ false }
{
    let mut end = limit;
    for step in steps.iter().rev() {
        if step.is_synced() {
            return end;
        }
        end = step.whole_until(file, place, end);
    }
    end
}
