//! Commands are carried out over the files, up to their replies, which are not told yet.
ghost use Rattle.std.specs.Prelude.{◌≡◌, OnOk};
ghost use Rattle.spec_machine.specs.Machine.{levels_behind};
ghost use Rattle.cube_state.specs.Carried.{CarriesOutWith, IsReadyFor};
ghost use Rattle.cube_state.specs.Levels.{FitSchema};
ghost use Rattle.cube_state.specs.Visits.{schema_of};

use crate::answering::{plain, status};
use crate::auditing::audit;
use crate::declaring::declare;
use crate::held::Held;
use cube_batches::{abandon, begin, finish, load, step, upgrade};
use cube_slices::{explain, level, rollup, slice, sql};
use cube_state::Stop;
use page_cache::Pages;
use script_lang::Command;
use site_core::Site;
use spec_machine::BatchSource;
use std::alloc::Global;
use text_hash::Seed;

/// Carries out a command, and gives its reply. A stop at any moment leaves what was known before it or is known behind it, and so does
/// an error, which ends the session. Damage leaves the names and the pages that count as they were.
pub fn act<T: Site>(
    alloc: Global,
    seed: Seed,
    pages: &mut Pages,
    held: &mut Held,
    command: Command,
    site: &mut T,
) -> Result<Vec<u8>, Stop>
    requires ready { IsReadyFor T.Site site.old pages.old held.old.state }
    requires fit { FitSchema (schema_of held.old.state) held.old.levels }
    ensures carried { CarriesOutWith T.Site held.old.levels command held.old.state held.new.state site.old site.new pages.old pages.new result }
    ensures leveled { OnOk result (held.new.levels ≡ levels_behind (schema_of held.old.state) held.old.levels command) }
{
    let state = &mut held.state;
    match command {
        Command::Schema(block) => declare(alloc, seed, state, block, site),
        Command::Load(block) => load(alloc, pages, state, BatchSource::Rows(block), site),
        Command::LoadNumbered { number, block } => {
            let source = BatchSource::Numbered { number, block };
            load(alloc, pages, state, source, site)
        }
        Command::Generate { start, rows } => {
            let source = BatchSource::Generator { start, rows };
            load(alloc, pages, state, source, site)
        }
        Command::Slice(text) => slice(alloc, pages, state, text.as_bytes(), site),
        Command::Explain(text) => explain(alloc, state, text.as_bytes()),
        Command::Sql(text) => sql(alloc, pages, state, text.as_bytes(), site),
        Command::Level { name, attr, block } => {
            level(alloc, state, &mut held.levels, &name, &attr, &block)
        }
        Command::Rollup(text) => rollup(alloc, pages, state, &held.levels, text.as_bytes(), site),
        Command::Status => status(alloc, state),
        Command::Begin(block) => begin(alloc, state, block, site),
        Command::Step(moves) => step(alloc, state, moves, site),
        Command::Finish => finish(alloc, pages, state, site),
        Command::Abandon => abandon(alloc, state, site),
        Command::Upgrade => upgrade(alloc, pages, state, site),
        Command::Audit => audit(alloc, seed, site),
        Command::LongLine => plain(alloc, "refused long line"),
        Command::OpenBlock => plain(alloc, "refused open block"),
        Command::Unknown => plain(alloc, "refused unknown"),
    }
}
