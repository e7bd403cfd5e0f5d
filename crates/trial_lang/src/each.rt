//! Runs in which each call or pull in turn fails, and stops of one run.

use crate::endings::{Endings, letter};
use crate::print::push_ended;
use crate::program::{Ended, Program};
use crate::request::Request;
use crate::rows::Rows;
use crate::scene::Scene;
use crate::trouble::Trouble;
use site_mem::MemorySite;
use std::alloc::{AllocError, Global};

/// What differs in each run.
#[derive(Clone, Copy)]
pub enum Kind {
    /// The call that fails.
    Fault,
    /// The pull that fails.
    Pull,
    /// The length of the pieces of the script.
    Piece,
}

impl Kind {
    fn set(self, request: &mut Request, number: u64) {
        match self {
            Kind::Fault => request.fail_call = Some(number),
            Kind::Pull => request.fail_pull = Some(number),
            Kind::Piece => request.pieces = number as usize,
        }
    }

    // The first and the last number, by the calls of the whole run and the bytes of its script.
    fn range(self, calls: usize, bytes: usize) -> (usize, usize) {
        match self {
            Kind::Fault => (0, calls),
            Kind::Pull => (0, bytes.saturating_add(1)),
            Kind::Piece => (1, bytes.saturating_add(1)),
        }
    }
}

/// Runs the script once for each number. Prints how the run ended, how many lines of the whole run it output and, if a call failed,
/// what a stop then may leave.
pub fn each<P: Program>(
    scene: &Scene<P>,
    kind: Kind,
    request: &mut Request,
    out: &mut String,
) -> Result<(), Trouble> {
    let (whole, _) = scene.run(request)?;
    let mut rows = scene.rows();
    add_runs(scene, kind, request, &whole, &mut rows, out)?;
    rows.print(out)
}

fn add_runs<P: Program>(
    scene: &Scene<P>,
    kind: Kind,
    request: &mut Request,
    whole: &MemorySite,
    rows: &mut Rows<'_, P>,
    out: &mut String,
) -> Result<(), Trouble> {
    let (first, last) = kind.range(whole.calls().len(), scene.script.len());
    for number in first..=last {
        kind.set(request, number as u64);
        let text = run_text(scene, kind, request, whole.told(), &mut rows.endings)?;
        rows.add(out, number as u64, text)?;
    }
    Ok(())
}

// How a run ended, what it output and, if a call failed, what a stop then may leave.
fn run_text<P: Program>(
    scene: &Scene<P>,
    kind: Kind,
    request: &Request,
    whole: &[u8],
    endings: &mut Endings<'_, P>,
) -> Result<String, Trouble> {
    let (site, ran) = scene.run(request)?;
    let mut text = String::new(scene.alloc);
    push_run(&mut text, ran.ended, site.told(), whole)?;
    if matches!(kind, Kind::Fault) {
        push_images(&mut text, endings, &site)?;
    }
    Ok(text)
}

/// Runs the script once. For a stop before each of its calls, prints how many lines were output by then, and what the stop may leave.
pub fn each_stop<P: Program>(
    scene: &Scene<P>,
    request: &Request,
    out: &mut String,
) -> Result<(), Trouble> {
    let (whole, _) = scene.run(request)?;
    let mut rows = scene.rows();
    add_stops(scene.alloc, &whole, &mut rows, out)?;
    rows.print(out)
}

fn add_stops<P: Program>(
    alloc: Global,
    whole: &MemorySite,
    rows: &mut Rows<'_, P>,
    out: &mut String,
) -> Result<(), Trouble> {
    for call in 0..=whole.calls().len() as u64 {
        let text = stop_text(alloc, whole, call, &mut rows.endings)?;
        rows.add(out, call, text)?;
    }
    Ok(())
}

// What was output before a call, and what a stop then may leave.
fn stop_text<P: Program>(
    alloc: Global,
    whole: &MemorySite,
    call: u64,
    endings: &mut Endings<'_, P>,
) -> Result<String, Trouble> {
    let then = whole.before(alloc, call)?;
    let mut text = String::new(alloc);
    push_told(&mut text, then.told(), whole.told())?;
    push_images(&mut text, endings, &then)?;
    Ok(text)
}

fn push_run(text: &mut String, ended: Ended, told: &[u8], whole: &[u8]) -> Result<(), AllocError> {
    push_ended(text, ended)?;
    text.push_str(", ")?;
    push_told(text, told, whole)
}

// How many lines were output, whether they differ from those of the whole run, and whether the last is incomplete.
fn push_told(text: &mut String, told: &[u8], whole: &[u8]) -> Result<(), AllocError> {
    let lines = told.iter().filter(|byte| **byte == b'\n').count();
    write!(text, "told {lines}")?;
    if !whole.starts_with(told) {
        text.push_str(" of other")?;
    }
    if !told.is_empty() && told.last() != Some(&b'\n') {
        text.push_str(" and a part")?;
    }
    Ok(())
}

// The letters of what a stop now may leave: those of the images 0 to 3, and those of the images 4 to 9 that are new.
fn push_images<P: Program>(
    text: &mut String,
    endings: &mut Endings<'_, P>,
    site: &MemorySite,
) -> Result<(), Trouble> {
    let mut seen = Vec::new(endings.alloc());
    text.push_str(", left ")?;
    for choice in 0..10 {
        let found = endings.look_at(site, choice)?;
        if choice < 4 || !seen.contains(&found) {
            text.push(letter(found))?;
        }
        seen.push(found)?;
    }
    Ok(())
}
