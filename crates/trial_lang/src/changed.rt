//! Looks at files with one byte changed.
ghost use Rattle.std.specs.Prelude.{◌<◌};

use crate::endings::{Endings, letter};
use crate::files::{put, with_file};
use crate::program::Program;
use crate::scene::Scene;
use crate::trouble::Trouble;

// The letter for the result of a look, with this byte at one place of a file.
fn look_with<P: Program>(
    scene: &Scene<P>,
    endings: &mut Endings<'_, P>,
    file: u32,
    place: u64,
    byte: u8,
) -> Result<String, Trouble>
    requires { file < 4 }
{
    let mut bytes = Vec::from_slice(scene.alloc, scene.site.file(file))?;
    put(&mut bytes, place, &[byte])?;
    let found = endings.look(with_file(scene.alloc, &scene.site, file, bytes)?)?;
    let mut text = String::new(scene.alloc);
    text.push(letter(found))?;
    Ok(text)
}

/// Looks at the files with each possible byte at one place.
pub fn each_byte<P: Program>(
    scene: &Scene<P>,
    file: u32,
    place: u64,
    out: &mut String,
) -> Result<(), Trouble>
    requires { file < 4 }
{
    let mut rows = scene.rows();
    for byte in 0..=255u8 {
        let text = look_with(scene, &mut rows.endings, file, place, byte)?;
        rows.add(out, byte as u64, text)?;
    }
    rows.print(out)
}

/// Looks at the files with one byte increased by one, for each place from `first` to `last`.
pub fn each_place<P: Program>(
    scene: &Scene<P>,
    file: u32,
    first: u64,
    last: u64,
    out: &mut String,
) -> Result<(), Trouble>
    requires { file < 4 }
{
    let mut rows = scene.rows();
    for place in first..=last {
        let byte = scene
            .site
            .file(file)
            .get(place as usize)
            .unwrap_or(&0)
            .wrapping_add(1);
        let text = look_with(scene, &mut rows.endings, file, place, byte)?;
        rows.add(out, place, text)?;
    }
    rows.print(out)
}
