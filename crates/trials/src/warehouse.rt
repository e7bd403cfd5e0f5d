//! The program of the warehouse.

use cube_shell::{Status, run_within};
use site_mem::MemorySource;
use std::alloc::Global;
use test_sites::{ShortSite, SureSite, SureSource};
use text_hash::Seed;
use trial_lang::{Ended, Program};

/// It runs as `cubetree` does.
#[derive(Drop)]
pub struct Warehouse;

impl Program for Warehouse {
    fn run(
        &self,
        alloc: Global,
        words: &[String],
        source: &mut MemorySource,
        site: &mut ShortSite,
        limit: u64,
    ) -> Ended {
        ended(run_within(alloc, Seed::new(0), words, source, site, limit))
    }

    fn look(
        &self,
        alloc: Global,
        source: &mut SureSource,
        site: &mut SureSite,
        limit: u64,
    ) -> Ended {
        ended(run_within(alloc, Seed::new(0), &[], source, site, limit))
    }
}

fn ended(status: Status) -> Ended {
    match status {
        Status::Done => Ended::Done,
        Status::Usage => Ended::Early("usage"),
        Status::Input => Ended::Early("input fault"),
        Status::Disk => Ended::Early("disk fault"),
        Status::Output => Ended::Early("output fault"),
        Status::Damaged { file, offset } => Ended::Damaged { file, offset },
        Status::Memory => Ended::Early("out of memory"),
        Status::TooLong => Ended::Early("script too long"),
    }
}
