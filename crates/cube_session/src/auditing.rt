//! The command `audit`.
ghost use Rattle.std.specs.Prelude.{◌≡◌, IfOk};
ghost use Rattle.cube_state.specs.Audits.{verdict_text};
ghost use Rattle.cube_session.specs.Auditing.{Audits};

use cube_state::Stop;
use fact_model::Memory;
use forest_audit::{AuditStop, Verdict};
use reply_text::{broken, plain};
use site_core::Site;
use std::alloc::Global;
use text_hash::Seed;

/// Opens the files anew and audits them, and gives the line of the verdict. Damage is the verdict, and no error: an error is that a file failed
/// or memory ran out. Nothing is written.
pub fn audit<T: Site>(alloc: Global, seed: Seed, site: &mut T) -> Result<Vec<u8>, Stop>
    ensures { Audits T.Site site.old site.new result }
{
    match forest_audit::audit(alloc, seed, site) {
        Ok(verdict) => Ok(verdict_line(alloc, verdict)?),
        Err(AuditStop::Disk) => Err(Stop::Disk),
        Err(AuditStop::Memory) => Err(Stop::Memory),
    }
}

/// The line of a verdict.
fn verdict_line(alloc: Global, verdict: Verdict) -> Result<Vec<u8>, Memory>
    ensures { IfOk result (λ reply. reply.items ≡ verdict_text verdict) }
{
    match verdict {
        Verdict::Empty => plain(alloc, "no schema"),
        Verdict::Yes => plain(alloc, "audit yes"),
        Verdict::No { file, offset } => broken(alloc, file, offset),
    }
}
