//! Changes of the fields of a tape. Those that belong together change together, or none of them.
ghost use Rattle.std.specs.Prelude.{◌≡◌, ◌<◌, ◌≤◌, List, [], ◌∷◌, ◌++◌, length, reverse, OnOk, OnErr, IfOk};
ghost use Rattle.site_core.specs.Disk.{overwritten};
ghost use Rattle.site_mem.specs.Fields.{Notes, NotesBytes, IsRange, IsFileWritten};
ghost use Rattle.site_mem.specs.History.{files_of, texts_of};
ghost use Rattle.site_mem.specs.declared.step.Step.{Step};
ghost use Rattle.site_mem.specs.declared.step.Step.TheVariants.{Wrote, Tore, Synced, Told, Untold};

use crate::step::{Range, Step};
use fact_model::Text;
use std::alloc::{AllocError, Global};

/// Notes the write and changes the file.
pub fn write_fields(
    alloc: Global,
    files: &mut [Vec<u8>; 4],
    steps: &mut Vec<Step>,
    file: u32,
    at: u64,
    bytes: &[u8],
) -> Result<(), AllocError>
    requires file { file < 4 }
    requires place { at ≤ length (files_of files.old file) }
    ensures files { OnOk result (IsFileWritten file at bytes.now files.old files.new) }
    ensures step { OnOk result (Notes Wrote file at bytes.now
        (reverse steps.old.items) (reverse steps.new.items)) }
    ensures err { OnErr result
        ((files_of files.new ≡ files_of files.old) × (steps.new.items ≡ steps.old.items)) }
{
    let range = copied(alloc, files, file, at, bytes)?;
    steps.push(Step::Wrote(range))?;
    let done = overwrite_file(files, file, at as usize, bytes);
    if done.is_err() {
        drop_last(steps);
    }
    done
}

/// The same with a range that was written before.
pub fn redo_write(
    files: &mut [Vec<u8>; 4],
    steps: &mut Vec<Step>,
    range: &Range,
) -> Result<(), AllocError>
    ensures files { OnOk result (IsFileWritten range.now.file range.now.at range.now.bytes files.old files.new) }
    ensures step { OnOk result (reverse steps.new.items ≡ Wrote range.now ∷ reverse steps.old.items) }
    ensures err { OnErr result
        ((files_of files.new ≡ files_of files.old) × (steps.new.items ≡ steps.old.items)) }
{
    let copy = range.copy()?;
    steps.push(Step::Wrote(copy))?;
    let done = overwrite_file(files, range.file, range.at as usize, range.bytes.as_bytes());
    if done.is_err() {
        drop_last(steps);
    }
    done
}

/// Notes such a range alone.
pub fn redo_tear(steps: &mut Vec<Step>, range: &Range) -> Result<(), AllocError>
    ensures step { OnOk result (reverse steps.new.items ≡ Tore range.now ∷ reverse steps.old.items) }
    ensures err { OnErr result (steps.new.items ≡ steps.old.items) }
{
    let copy = range.copy()?;
    steps.push(Step::Tore(copy))?;
    Ok(())
}

/// Notes the write alone.
pub fn tear_fields(
    alloc: Global,
    files: &[Vec<u8>; 4],
    steps: &mut Vec<Step>,
    file: u32,
    at: u64,
    bytes: &[u8],
) -> Result<(), AllocError>
    requires file { file < 4 }
    requires place { at ≤ length (files_of files.now file) }
    ensures step { OnOk result (Notes Tore file at bytes.now
        (reverse steps.old.items) (reverse steps.new.items)) }
    ensures err { OnErr result (steps.new.items ≡ steps.old.items) }
{
    let range = copied(alloc, files, file, at, bytes)?;
    steps.push(Step::Tore(range))?;
    Ok(())
}

/// Notes the sync and keeps the files as the stable ones.
pub fn sync_fields(
    alloc: Global,
    files: &[Vec<u8>; 4],
    stable: &mut [Vec<u8>; 4],
    steps: &mut Vec<Step>,
) -> Result<(), AllocError>
    ensures stable { OnOk result (files_of stable.new ≡ files_of files.now) }
    ensures step { OnOk result (reverse steps.new.items ≡ Synced ∷ reverse steps.old.items) }
    ensures err { OnErr result ((stable.new ≡ stable.old) × (steps.new.items ≡ steps.old.items)) }
{
    let next = copies(alloc, files)?;
    steps.push(Step::Synced)?;
    *stable = next;
    Ok(())
}

/// Notes the output and appends to the bytes told.
pub fn emit_fields(
    alloc: Global,
    told: &mut Vec<u8>,
    steps: &mut Vec<Step>,
    bytes: &[u8],
) -> Result<(), AllocError>
    ensures told { OnOk result (told.new.items ≡ told.old.items ++ bytes.now) }
    ensures step { OnOk result (NotesBytes Told bytes.now
        (reverse steps.old.items) (reverse steps.new.items)) }
    ensures err { OnErr result ((told.new.items ≡ told.old.items) × (steps.new.items ≡ steps.old.items)) }
{
    let length = told.len();
    told.extend_from_slice(bytes)?;
    let noted = note_told(alloc, steps, bytes);
    if noted.is_err() {
        told.truncate(length);
    }
    noted
}

fn note_told(alloc: Global, steps: &mut Vec<Step>, bytes: &[u8]) -> Result<(), AllocError>
    ensures step { OnOk result (NotesBytes Told bytes.now
        (reverse steps.old.items) (reverse steps.new.items)) }
    ensures err { OnErr result (steps.new.items ≡ steps.old.items) }
{
    let copy = bytes.to_vec(alloc)?;
    steps.push(Step::Told(Text::from_vec(copy)))?;
    Ok(())
}

/// Notes the output alone.
pub fn hush_fields(alloc: Global, steps: &mut Vec<Step>, bytes: &[u8]) -> Result<(), AllocError>
    ensures step { OnOk result (NotesBytes Untold bytes.now
        (reverse steps.old.items) (reverse steps.new.items)) }
    ensures err { OnErr result (steps.new.items ≡ steps.old.items) }
{
    let copy = bytes.to_vec(alloc)?;
    steps.push(Step::Untold(Text::from_vec(copy)))?;
    Ok(())
}

fn drop_last(steps: &mut Vec<Step>)
    ensures { (earlier : List Step) (last : Step)
        → steps.old.items ≡ earlier ++ last ∷ [] → steps.new.items ≡ earlier }
{
    steps.pop();
}

fn overwrite_file(
    files: &mut [Vec<u8>; 4],
    file: u32,
    at: usize,
    bytes: &[u8],
) -> Result<(), AllocError>
    requires { file < 4 }
    ensures ok { OnOk result (IsFileWritten file at bytes.now files.old files.new) }
    ensures err { OnErr result (files_of files.new ≡ files_of files.old) }
{
    overwrite(&mut files[file as usize], at, bytes)
}

// Puts bytes over the old ones and past the end.
fn overwrite(file: &mut Vec<u8>, at: usize, bytes: &[u8]) -> Result<(), AllocError>
    ensures ok { OnOk result (file.new.items ≡ overwritten file.old.items at bytes.now) }
    ensures err { OnErr result (file.new.items ≡ file.old.items) }
{
    overwrite_within(file, at.min(file.len()), bytes)
}

fn overwrite_within(file: &mut Vec<u8>, at: usize, bytes: &[u8]) -> Result<(), AllocError>
    requires { at ≤ length file.old.items }
    ensures ok { OnOk result (file.new.items ≡ overwritten file.old.items at bytes.now) }
    ensures err { OnErr result (file.new.items ≡ file.old.items) }
{
    let over = bytes.len().min(file.len() - at);
    file.extend_from_slice(&bytes[over..])?;
    file[at..at + over].copy_from_slice(&bytes[..over]);
    Ok(())
}

fn copied(
    alloc: Global,
    files: &[Vec<u8>; 4],
    file: u32,
    at: u64,
    bytes: &[u8],
) -> Result<Range, AllocError>
    requires file { file < 4 }
    requires place { at ≤ length (files_of files.now file) }
    ensures { IfOk result (IsRange file at bytes.now) }
{
    // The place lies within a file and the bytes in a slice, so the end of the range is a `u64`.
    let _length = files[file as usize].len();
    let copy = bytes.to_vec(alloc)?;
    Ok(Range {
        file,
        at,
        bytes: Text::from_vec(copy),
    })
}

/// Copies of four files.
pub fn copies(alloc: Global, files: &[Vec<u8>; 4]) -> Result<[Vec<u8>; 4], AllocError>
    ensures { IfOk result (λ copies. files_of copies ≡ files_of files.now) }
{
    Ok([
        copy(alloc, files, 0)?,
        copy(alloc, files, 1)?,
        copy(alloc, files, 2)?,
        copy(alloc, files, 3)?,
    ])
}

fn copy(alloc: Global, files: &[Vec<u8>; 4], file: u32) -> Result<Vec<u8>, AllocError>
    requires { file < 4 }
    ensures { IfOk result (λ copy. copy.items ≡ files_of files.now file) }
{
    files[file as usize].to_vec(alloc)
}
