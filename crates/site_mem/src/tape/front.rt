//! A tape as it was after some of its steps.
ghost use Rattle.std.specs.Prelude.{◌≡◌, ◌∷◌, [], take, reverse, OnOk, IfOk};

use crate::step::{Range, Step};
use crate::tape::Tape;
use crate::tape::fields::{copies, redo_tear, redo_write};
use std::alloc::{AllocError, Global};

impl Tape {
    ghost use Rattle.site_mem.specs.declared.step.Step.TheVariants.{Wrote, Tore};
    ghost use Rattle.site_mem.specs.Tape.{tape_first, tape_steps};

    /// The tape after the first so many of its steps, and the same where it has no more.
    pub fn front(&self, alloc: Global, count: usize) -> Result<Tape, AllocError>
        ensures first { IfOk result (λ tape. tape_first tape ≡ tape_first self.now) }
        ensures steps { IfOk result (λ tape. tape_steps tape ≡ reverse (take count self.now.steps.items)) }
    {
        let steps = &self.steps[..count.min(self.steps.len())];
        let mut tape = self.start(alloc)?;
        for step in steps {
            tape.redo(step)?;
        }
        Ok(tape)
    }

    // Before all of them.
    fn start(&self, alloc: Global) -> Result<Tape, AllocError>
        ensures first { IfOk result (λ tape. tape_first tape ≡ tape_first self.now) }
        ensures steps { IfOk result (λ tape. tape_steps tape ≡ []) }
    {
        let first = copies(alloc, &self.first)?;
        let stable = copies(alloc, &self.first)?;
        let files = copies(alloc, &self.first)?;
        Ok(Tape::new(alloc, first, stable, files))
    }

    // Does once more what a step has done.
    fn redo(&mut self, step: &Step) -> Result<(), AllocError>
        ensures first { tape_first self.new ≡ tape_first self.old }
        ensures step { OnOk result (tape_steps self.new ≡ step.now ∷ tape_steps self.old) }
    {
        match step {
            Step::Wrote(range) => self.redo_write(range),
            Step::Tore(range) => self.redo_tear(range),
            Step::Synced => self.sync(),
            Step::Told(bytes) => self.emit(bytes.as_bytes()),
            Step::Untold(bytes) => self.hush(bytes.as_bytes()),
        }
    }

    fn redo_write(&mut self, range: &Range) -> Result<(), AllocError>
        ensures first { tape_first self.new ≡ tape_first self.old }
        ensures step { OnOk result (tape_steps self.new ≡ Wrote range.now ∷ tape_steps self.old) }
    {
        redo_write(&mut self.files, &mut self.steps, range)
    }

    fn redo_tear(&mut self, range: &Range) -> Result<(), AllocError>
        ensures first { tape_first self.new ≡ tape_first self.old }
        ensures step { OnOk result (tape_steps self.new ≡ Tore range.now ∷ tape_steps self.old) }
    {
        redo_tear(&mut self.steps, range)
    }
}
