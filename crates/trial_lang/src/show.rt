//! What a trial prints about the last run and the files.

use crate::print::{push_call, push_row};
use fact_model::Text;
use site_mem::{Call, MemorySite};
use std::alloc::AllocError;

/// Prints the calls with numbers in a range.
pub fn calls(calls: &[Call], first: u64, last: u64, out: &mut String) -> Result<(), AllocError> {
    for (i, call) in calls.iter().enumerate() {
        if first <= i as u64 && i as u64 <= last {
            push_call(out, i, call)?;
        }
    }
    Ok(())
}

/// Prints how many reads, writes and syncs were requested.
pub fn cost(calls: &[Call], out: &mut String) -> Result<(), AllocError> {
    let mut reads = 0u64;
    let mut writes = 0u64;
    let mut syncs = 0u64;
    for call in calls {
        match call {
            Call::Read { .. } => reads = reads.saturating_add(1),
            Call::Write { .. } => writes = writes.saturating_add(1),
            Call::Sync => syncs = syncs.saturating_add(1),
            Call::Length { .. } | Call::Emit { .. } => {}
        }
    }
    writeln!(out, "> reads {reads}, writes {writes}, syncs {syncs}")
}

/// Prints the rows of sixteen bytes that begin in a range, except rows of zeros, and the length.
pub fn dump(bytes: &[u8], first: u64, last: u64, out: &mut String) -> Result<(), AllocError> {
    for (i, row) in bytes.chunks(16).enumerate() {
        let place = i.saturating_mul(16);
        if first <= place as u64 && place as u64 <= last && !is_zero(row) {
            push_row(out, place, row)?;
        }
    }
    writeln!(out, "> length {}", bytes.len())
}

fn is_zero(row: &[u8]) -> bool {
    row.iter().all(|byte| *byte == 0)
}

/// Prints which files of a site differ from these.
pub fn differing(site: &MemorySite, files: &[Text; 4], out: &mut String) -> Result<(), AllocError> {
    for file in 0..4u32 {
        if site.file(file) != files[file as usize].as_bytes() {
            writeln!(out, "> file {file} differs")?;
        }
    }
    Ok(())
}
