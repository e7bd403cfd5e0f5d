//! Changes of the fields of a site, each kept with what was there before it.
ghost use Rattle.std.specs.Prelude.{◌≡◌, ◌<◌, ◌≤◌, length, IfOk, OnOk, OnErr};
ghost use Rattle.site_core.specs.Disk.{overwritten, with_file};
ghost use Rattle.site_mem.specs.History.{texts_of};
ghost use Rattle.test_sites.specs.Put.{IsPut, IsSaid};

use crate::sure_site::Change;
use fact_model::Text;
use std::alloc::{AllocError, Global};
use std::mem::replace;

/// Puts bytes at a place of a file.
pub fn put(
    alloc: Global,
    files: &mut [Text; 4],
    past: &mut Vec<Change>,
    file: u32,
    at: u64,
    bytes: &[u8],
) -> Result<(), AllocError>
    requires file { file < 4 }
    requires place { at ≤ length (texts_of files.old file) }
    ensures ok { OnOk result (IsPut file at bytes.now files.old files.new past.old.items past.new.items) }
    ensures err { OnErr result ((texts_of files.new ≡ texts_of files.old) × (past.new.items ≡ past.old.items)) }
{
    past.reserve(1)?;
    let bytes = replace_file(alloc, files, file, at as usize, bytes)?;
    // There is room for it, so that nothing can fail behind the exchange.
    past.push(Change::Wrote { file, bytes })?;
    Ok(())
}

// Answers the file as it was.
fn replace_file(
    alloc: Global,
    files: &mut [Text; 4],
    file: u32,
    at: usize,
    bytes: &[u8],
) -> Result<Text, AllocError>
    requires file { file < 4 }
    requires place { at ≤ length (texts_of files.old file) }
    ensures old { IfOk result (λ old. old ≡ texts_of files.old file) }
    ensures new { OnOk result (texts_of files.new
        ≡ with_file (texts_of files.old) file (overwritten (texts_of files.old file) at bytes.now)) }
    ensures err { OnErr result (texts_of files.new ≡ texts_of files.old) }
{
    let new = text_with(alloc, files[file as usize].as_bytes(), at, bytes)?;
    Ok(replace(&mut files[file as usize], new))
}

// Old bytes with others over them and past their end.
fn text_with(alloc: Global, old: &[u8], at: usize, bytes: &[u8]) -> Result<Text, AllocError>
    requires { at ≤ length old.now }
    ensures { IfOk result (λ text. text ≡ overwritten old.now at bytes.now) }
{
    let end = at + bytes.len();
    let rest = &old[end.min(old.len())..];
    let mut new = Vec::with_capacity(alloc, end + rest.len())?;
    new.extend_from_slice(&old[..at])?;
    new.extend_from_slice(bytes)?;
    new.extend_from_slice(rest)?;
    Ok(Text::from_vec(new))
}

/// Appends bytes to those told.
pub fn say(told: &mut Vec<u8>, past: &mut Vec<Change>, bytes: &[u8]) -> Result<(), AllocError>
    ensures ok { OnOk result (IsSaid bytes.now told.old.items told.new.items past.old.items past.new.items) }
    ensures err { OnErr result ((told.new.items ≡ told.old.items) × (past.new.items ≡ past.old.items)) }
{
    past.reserve(1)?;
    let count = told.len();
    told.extend_from_slice(bytes)?;
    past.push(Change::Told { count })?;
    Ok(())
}
