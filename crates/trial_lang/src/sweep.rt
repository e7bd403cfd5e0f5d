//! Large numbers of stop images.

use crate::endings::{Endings, letter};
use crate::program::Program;
use crate::request::Request;
use crate::scene::Scene;
use crate::trouble::Trouble;
use lcg::Draws;
use site_mem::MemorySite;
use std::alloc::{AllocError, Global};

/// Looks at up to `images` drawn images of stops, equally many for each stop of one run. Prints those with a result that
/// differs from the results of the stop's images 0 to 3.
pub fn sweep<P: Program>(
    scene: &Scene<P>,
    request: &Request,
    seed: u64,
    images: u64,
    out: &mut String,
) -> Result<(), Trouble> {
    let (whole, _) = scene.run(request)?;
    let mut endings = scene.endings();
    let draws = Draws { state: seed };
    sweep_stops(scene.alloc, &whole, draws, images, &mut endings, out)?;
    Ok(endings.print(out)?)
}

fn sweep_stops<P: Program>(
    alloc: Global,
    whole: &MemorySite,
    mut draws: Draws,
    images: u64,
    endings: &mut Endings<'_, P>,
    out: &mut String,
) -> Result<(), Trouble> {
    let last = whole.calls().len() as u64;
    let share = images / last.saturating_add(1);
    for call in 0..=last {
        let then = whole.before(alloc, call)?;
        push_found(call, &sweep_stop(&then, share, &mut draws, endings)?, out)?;
    }
    writeln!(out, "> {share} images of each stop from 0 to {last}")?;
    Ok(())
}

fn push_found(call: u64, found: &[(u64, usize)], out: &mut String) -> Result<(), AllocError> {
    for (choice, ending) in found {
        writeln!(out, "> stop {call} image {choice}: {}", letter(*ending))?;
    }
    Ok(())
}

// The drawn images of one stop with new results, each with the number of its ending.
fn sweep_stop<P: Program>(
    site: &MemorySite,
    images: u64,
    draws: &mut Draws,
    endings: &mut Endings<'_, P>,
) -> Result<Vec<(u64, usize)>, Trouble> {
    let mut seen = first_seen(site, endings)?;
    let mut found = Vec::new(endings.alloc());
    for _ in 0..images {
        let choice = draws.draw().saturating_add(4);
        let ending = endings.look_at(site, choice)?;
        if !seen.contains(&ending) {
            found.push((choice, ending))?;
            seen.push(ending)?;
        }
    }
    Ok(found)
}

// The endings of the images 0 to 3.
fn first_seen<P: Program>(
    site: &MemorySite,
    endings: &mut Endings<'_, P>,
) -> Result<Vec<usize>, Trouble> {
    let mut seen = Vec::new(endings.alloc());
    for choice in 0..4 {
        seen.push(endings.look_at(site, choice)?)?;
    }
    Ok(seen)
}
