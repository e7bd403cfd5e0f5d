//! The files of one outcome of a stop.
ghost use Rattle.std.specs.Prelude.{◌≡◌, ◌<◌, ◌+◌, ◌^◌, reverse, IfOk, OnOk};
ghost use Rattle.site_mem.specs.History.{files_of, texts_of};
ghost use Rattle.site_mem.specs.Unstable.{reach};

use crate::step::Step;
use crate::tape::Tape;
use fact_model::{Memory, Text};
use lcg::Draws;
use std::alloc::Global;

impl Tape {
    ghost use Rattle.lcg.specs.Draw.{next_state};
    ghost use Rattle.site_mem.specs.Tape.{tape_disk, tape_stable, tape_full};
    ghost use Rattle.site_mem.specs.Tape.{tape_filled, tape_drawn, tape_drawn_length, tape_drawn_file, tape_state_behind};

    /// The files of one outcome of a stop now: as a read gives them, the stable ones, with the byte 1 or 0 at all unstable
    /// places, or drawn.
    pub fn image(&self, alloc: Global, choice: u64) -> Result<[Text; 4], Memory>
        ensures read { choice ≡ 0 → IfOk result (λ texts. texts_of texts ≡ (tape_disk self.now).files) }
        ensures stable { choice ≡ 1 → IfOk result (λ texts. texts_of texts ≡ tape_stable self.now) }
        ensures ones { choice ≡ 2 → IfOk result (λ texts. texts_of texts ≡ tape_filled self.now 1) }
        ensures zeros { choice ≡ 3 → IfOk result (λ texts. texts_of texts ≡ tape_filled self.now 0) }
        ensures drawn { 3 < choice → IfOk result (λ texts. texts_of texts ≡ tape_drawn self.now choice) }
        ensures outcome { IfOk result (λ texts. (tape_disk self.now).may_leave (texts_of texts)) }
    {
        match choice {
            0 => texts(alloc, &self.files),
            1 => texts(alloc, &self.stable),
            2 => self.all_filled(alloc, 1),
            3 => self.all_filled(alloc, 0),
            _ => self.all_drawn(alloc, choice),
        }
    }

    fn all_filled(&self, alloc: Global, byte: u8) -> Result<[Text; 4], Memory>
        ensures files { IfOk result (λ texts. texts_of texts ≡ tape_filled self.now byte) }
        ensures outcome { IfOk result (λ texts. (tape_disk self.now).may_leave (texts_of texts)) }
    {
        Ok([
            self.filled(alloc, 0, byte)?,
            self.filled(alloc, 1, byte)?,
            self.filled(alloc, 2, byte)?,
            self.filled(alloc, 3, byte)?,
        ])
    }

    fn all_drawn(&self, alloc: Global, choice: u64) -> Result<[Text; 4], Memory>
        ensures files { IfOk result (λ texts. texts_of texts ≡ tape_drawn self.now choice) }
        ensures outcome { IfOk result (λ texts. (tape_disk self.now).may_leave (texts_of texts)) }
    {
        let mut draws = Draws { state: choice };
        Ok([
            self.drawn(alloc, 0, &mut draws)?,
            self.drawn(alloc, 1, &mut draws)?,
            self.drawn(alloc, 2, &mut draws)?,
            self.drawn(alloc, 3, &mut draws)?,
        ])
    }

    // The greatest length that a stop now may leave.
    fn full_length(&self, file: u32) -> usize
        requires { file < 4 }
        ensures value { result ≡ tape_full self.now file }
        ensures small { result + 1 < 2 ^ 64 }
    {
        self.stable_bytes(file)
            .len()
            .max(reach(&self.steps, file) as usize)
    }

    // A file of its full length, with one byte at each unstable place.
    fn filled(&self, alloc: Global, file: u32, byte: u8) -> Result<Text, Memory>
        requires { file < 4 }
        ensures { IfOk result (λ text. text ≡ tape_filled self.now byte file) }
    {
        let length = self.full_length(file);
        let mut bytes = Vec::with_capacity(alloc, length)?;
        while bytes.len() < length {
            self.push_filled(file, length, byte, &mut bytes)?;
        }
        Ok(Text::from_vec(bytes))
    }

    // A file of a drawn length, with a drawn byte at each unstable place.
    fn drawn(&self, alloc: Global, file: u32, draws: &mut Draws) -> Result<Text, Memory>
        requires { file < 4 }
        ensures text { IfOk result (λ text. text ≡ tape_drawn_file self.now file draws.old.state) }
        ensures draws { OnOk result (draws.new.state ≡ tape_state_behind self.now file draws.old.state) }
    {
        let length = self.drawn_length(file, draws);
        let mut bytes = Vec::with_capacity(alloc, length)?;
        while bytes.len() < length {
            self.push_drawn(file, length, draws, &mut bytes)?;
        }
        Ok(Text::from_vec(bytes))
    }

    fn drawn_length(&self, file: u32, draws: &mut Draws) -> usize
        requires { file < 4 }
        ensures length { result ≡ tape_drawn_length self.now file draws.old.state }
        ensures draws { draws.new.state ≡ next_state draws.old.state }
    {
        let stable = self.stable_bytes(file).len();
        let growth = self.full_length(file) - stable;
        stable + (draws.draw() % (growth as u64 + 1)) as usize
    }
}

// Copies of four files.
fn texts(alloc: Global, files: &[Vec<u8>; 4]) -> Result<[Text; 4], Memory>
    ensures { IfOk result (λ texts. texts_of texts ≡ files_of files.now) }
{
    Ok([
        text(alloc, files, 0)?,
        text(alloc, files, 1)?,
        text(alloc, files, 2)?,
        text(alloc, files, 3)?,
    ])
}

fn text(alloc: Global, files: &[Vec<u8>; 4], file: u32) -> Result<Text, Memory>
    requires { file < 4 }
    ensures { IfOk result (λ text. text ≡ files_of files.now file) }
{
    Text::from_bytes(alloc, &files[file as usize])
}

// The greatest end of a range that was written since the last sync.
fn reach(steps: &[Step], file: u32) -> u64
    ensures value { result ≡ reach (reverse steps.now) file }
    ensures small { result + 1 < 2 ^ 64 }
{
    let mut greatest = 0;
    for step in steps.iter().rev() {
        if step.is_synced() {
            return greatest;
        }
        greatest = step.end_in(file).max(greatest);
    }
    greatest
}
