//! Files that a trial edits.
ghost use Rattle.std.specs.Prelude.{◌<◌};

use crate::trouble::Trouble;
use fact_model::{Memory, Text};
use site_mem::MemorySite;
use std::alloc::{AllocError, Global};

/// The size of a page, in bytes.
pub const PAGE: u64 = 4096;

/// Copies of four files.
pub fn copies(alloc: Global, files: &[Text; 4]) -> Result<[Text; 4], Memory> {
    Ok([
        Text::from_bytes(alloc, files[0].as_bytes())?,
        Text::from_bytes(alloc, files[1].as_bytes())?,
        Text::from_bytes(alloc, files[2].as_bytes())?,
        Text::from_bytes(alloc, files[3].as_bytes())?,
    ])
}

/// The files of a site as a read gives them, with one of them replaced by these bytes.
pub fn with_file(
    alloc: Global,
    site: &MemorySite,
    file: u32,
    bytes: Vec<u8>,
) -> Result<[Text; 4], Memory>
    requires { file < 4 }
{
    let mut files = site.image(alloc, 0)?;
    files[file as usize] = Text::from_vec(bytes);
    Ok(files)
}

/// Sets the length of a file: truncates it, or appends zeros.
pub fn set_length(bytes: &mut Vec<u8>, length: u64) -> Result<(), AllocError> {
    bytes.resize(length as usize, 0)
}

/// The page that begins at a place, or as much of it as the file has.
pub fn page_of(bytes: &[u8], place: u64) -> &[u8] {
    let rest = bytes.get(place as usize..).unwrap_or(&[]);
    rest.get(..PAGE as usize).unwrap_or(rest)
}

/// Writes bytes at a place. Bytes between the end and the place are zero.
pub fn put(bytes: &mut Vec<u8>, place: u64, given: &[u8]) -> Result<(), AllocError> {
    if (bytes.len() as u64) < place {
        set_length(bytes, place)?;
    }
    for (i, byte) in given.iter().enumerate() {
        match bytes.get_mut((place as usize).saturating_add(i)) {
            Some(old) => *old = *byte,
            None => bytes.push(*byte)?,
        }
    }
    Ok(())
}
