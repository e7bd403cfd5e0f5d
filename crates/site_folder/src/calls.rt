//! What a site asks of its host, call by call.
ghost use Rattle.std.specs.Prelude.{◌≡◌, ◌<◌, ◌≤◌, ◌+◌, ◌++◌, ◌⊎◌, ◌^◌, ◌↔◌, IsTrue, length, IfOk, OnOk};
ghost use Rattle.std.specs.IoError.{error_kind};
ghost use Rattle.site_core.specs.Calls.{Rests, Settles, Stays, Fills, Writes, Emits};
ghost use Rattle.site_core.specs.Disk.{with_file, overwritten};
ghost use Rattle.site_folder.specs.Faults.{FaultsOf};
ghost use Rattle.site_folder.specs.Finding.{IsFound};
ghost use Rattle.site_folder.specs.Frames.{LooksOnly};
ghost use Rattle.site_folder.specs.Ledger.{AreSyncedTo, Asks, Keeps, KeepsOthers};
ghost use Rattle.site_folder.specs.Notes.{AreNotedTo, AreSynced, AsksDue};

use crate::host::Host;
use std::io;
use std::io::ErrorKind;

/// Opens a file if it is there, and returns whether it was. A file that is not there is no fault.
pub fn find<H: Host>(host: &mut H, file: u32) -> io::Result<bool>
    requires { file < 4 }
    ensures found { IfOk result (IsFound file (H.ledger host.new)) }
    ensures absent { IsTrue H.tells → IfOk result (λ is_there. IsTrue is_there ⊎ (length ((H.disk host.old).files file) ≡ 0)) }
    ensures looks { LooksOnly H.Host host.old host.new result }
{
    match host.open(file) {
        Ok(()) => Ok(true),
        Err(error) if error.kind() == ErrorKind::NotFound => Ok(false),
        Err(error) => Err(error),
    }
}

/// Whether the place `count` bytes after `at` is past the end of u64.
fn is_too_far(at: u64, count: usize) -> bool
    ensures { IsTrue result ↔ 2 ^ 64 ≤ at + count }
{
    at.checked_add(count as u64).is_none()
}

/// Reads an open file from a place on until the buffer is full or the file ends, and returns the number of bytes read. A
/// buffer that would end past the greatest place is a fault.
pub fn fill<H: Host>(host: &mut H, file: u32, at: u64, into: &mut [u8]) -> io::Result<usize>
    requires file { file < 4 }
    requires open { IsTrue ((H.ledger host.old).opened file) }
    ensures bound { IfOk result (λ count. count ≤ length into.new) }
    ensures answer { IsTrue H.tells → IfOk result (λ count. Fills ((H.disk host.old).files file) at count into.new) }
    ensures looks { LooksOnly H.Host host.old host.new result }
{
    if is_too_far(at, into.len()) {
        return Err(host.too_far(at, into.len()));
    }
    let mut count = 0;
    while count < into.len() {
        let got = host.read_at(file, at + count as u64, &mut into[count..])?;
        if got == 0 {
            break;
        }
        count += got;
    }
    Ok(count)
}

/// Writes all bytes to an open file at a place. Bytes that would end past the greatest place are a fault.
pub fn put<H: Host>(host: &mut H, file: u32, at: u64, bytes: &[u8]) -> io::Result<()>
    requires file { file < 4 }
    requires open { IsTrue ((H.ledger host.old).opened file) }
    requires place { IsTrue H.tells → at ≤ length ((H.disk host.old).files file) }
    ensures written { IsTrue H.tells → OnOk result ((H.disk host.new).files
        ≡ with_file (H.disk host.old).files file (overwritten ((H.disk host.old).files file) at bytes.now)) }
    ensures keeps { KeepsOthers file (H.ledger host.old) (H.ledger host.new) }
    ensures faults { FaultsOf H.disk_faults H.told_faults host.old host.new result }
    ensures disk { IsTrue H.tells → Writes file at bytes.now (H.disk host.old) (H.disk host.new) }
{
    if is_too_far(at, bytes.len()) {
        return Err(host.too_far(at, bytes.len()));
    }
    let mut count = 0;
    while count < bytes.len() {
        count += host.write_at(file, at + count as u64, &bytes[count..])?;
    }
    Ok(())
}

/// Writes all bytes to the output, and flushes it.
pub fn tell<H: Host>(host: &mut H, bytes: &[u8]) -> io::Result<()>
    ensures told { IsTrue H.tells → OnOk result ((H.disk host.new).told ≡ (H.disk host.old).told ++ bytes.now) }
    ensures flushed { OnOk result (IsTrue (H.ledger host.new).flushed) }
    ensures keeps { Keeps (H.ledger host.old) (H.ledger host.new) }
    ensures faults { FaultsOf H.told_faults H.disk_faults host.old host.new result }
    ensures disk { IsTrue H.tells → Emits bytes.now (H.disk host.old) (H.disk host.new) }
{
    let mut count = 0;
    while count < bytes.len() {
        count += host.put(&bytes[count..])?;
    }
    host.flush()
}

/// Syncs each file that is there and is not noted as synced, and notes it. A file that is not there has nothing to
/// sync.
pub fn sync_files<H: Host>(host: &mut H, is_synced: &mut [bool; 4]) -> io::Result<()>
    requires { AreSynced is_synced.old (H.ledger host.old) }
    ensures synced { OnOk result (AreSyncedTo 4 (H.ledger host.new)) }
    ensures noted { OnOk result (AreNotedTo 4 is_synced.new) }
    ensures notes { AreSynced is_synced.new (H.ledger host.new) }
    ensures asks { AsksDue is_synced.old (H.ledger host.old) (H.ledger host.new) }
    ensures faults { FaultsOf H.disk_faults H.told_faults host.old host.new result }
    ensures disk { IsTrue H.tells → Settles Stays (H.disk host.old) (H.disk host.new) result }
{
    for file in 0..4u32 {
        if !is_synced[file as usize] {
            sync_file(host, file)?;
            is_synced[file as usize] = true;
        }
    }
    Ok(())
}

/// Syncs a file if it is there.
fn sync_file<H: Host>(host: &mut H, file: u32) -> io::Result<()>
    requires { file < 4 }
    ensures synced { OnOk result (IsTrue ((H.ledger host.new).synced file)) }
    ensures asks { Asks file (H.ledger host.old) (H.ledger host.new) }
    ensures faults { FaultsOf H.disk_faults H.told_faults host.old host.new result }
    ensures disk { IsTrue H.tells → Settles Stays (H.disk host.old) (H.disk host.new) result }
{
    if find(host, file)? {
        return host.sync_file(file);
    }
    Ok(())
}
