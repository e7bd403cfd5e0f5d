//! The site over real files, in folders of the tests' own.
use crate::current_folder::CurrentFolder;
use site_core::Site;
use site_folder::FolderSite;
use std::path::PathBuf;
use std::process::Abort;
use std::test::Fail;
use std::{env, fs};

/// Makes a new folder and enters it.
fn enter_room(rt: &HostRuntime, test: &str) -> Result<PathBuf, Fail> {
    let mut room = env::temp_dir(rt)?;
    let name = format!(in rt.alloc(); "cubetree-{test}-{}", std::process::id(rt.process()))?;
    room.push(name.as_str())?;
    fs::create_dir(rt, &room)?;
    env::set_current_dir(rt, &room)?;
    Ok(room)
}

/// Expects the site to read exactly these bytes of a file from there on.
fn reads(
    rt: &impl Abort,
    site: &mut FolderSite<CurrentFolder<'_>>,
    file: u32,
    at: u64,
    wanted: &[u8],
) {
    assert!(rt; file < 4);
    let mut into = [0u8; 16];
    let count = site.read(file, at, &mut into);
    assert!(rt; count.is_ok(), "file {file} from {at}");
    let count = count.unwrap_or(0);
    assert_eq!(rt; &into[..count], wanted, "file {file} from {at}");
}

fn lengths(rt: &impl Abort, site: &mut FolderSite<CurrentFolder<'_>>, wanted: [u64; 4]) {
    for file in 0..4u32 {
        assert_eq!(rt; site.length(file), Ok(wanted[file as usize]), "file {file}");
    }
}

#[test]
fn files_are_made_written_synced_and_read_back(rt: HostRuntime) -> Result<(), Fail> {
    let room = enter_room(&rt, "files")?;
    let mut site = FolderSite::new(CurrentFolder::new(&rt));
    // A file that is not there has length 0, gives no bytes, and is not made by these calls.
    lengths(&rt, &mut site, [0, 0, 0, 0]);
    reads(&rt, &mut site, 1, 0, b"");
    assert_eq!(rt; site.sync(), Ok(()));
    assert!(rt; fs::metadata(&rt, "names").is_err());
    // The first write makes the file; a write past the end lengthens it, and leaves the bytes before it.
    assert_eq!(rt; site.write(1, 0, b"bolt"), Ok(()));
    assert_eq!(rt; site.write(3, 0, b"side"), Ok(()));
    assert_eq!(rt; site.write(1, 2, b"tom up"), Ok(()));
    assert_eq!(rt; site.sync(), Ok(()));
    lengths(&rt, &mut site, [0, 8, 0, 4]);
    // Another site over the same folder opens what is there.
    let mut again = FolderSite::new(CurrentFolder::new(&rt));
    assert_eq!(rt; again.sync(), Ok(()));
    lengths(&rt, &mut again, [0, 8, 0, 4]);
    reads(&rt, &mut again, 1, 0, b"botom up");
    reads(&rt, &mut again, 1, 6, b"up");
    reads(&rt, &mut again, 1, 8, b"");
    reads(&rt, &mut again, 3, 1, b"ide");
    fs::remove_dir_all(&rt, &room)?;
    Ok(())
}

#[test]
fn a_folder_in_the_place_of_a_file_is_a_fault(rt: HostRuntime) -> Result<(), Fail> {
    let room = enter_room(&rt, "fault")?;
    fs::create_dir(&rt, "root")?;
    let mut site = FolderSite::new(CurrentFolder::new(&rt));
    assert!(rt; site.write(0, 0, b"x").is_err());
    assert!(rt; site.sync().is_err());
    fs::remove_dir_all(&rt, &room)?;
    Ok(())
}
