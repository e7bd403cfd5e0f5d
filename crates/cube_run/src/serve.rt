//! The commands of a script, carried out one after the other while its pieces come.
ghost use Rattle.std.specs.Prelude.{◌≤◌, ◌^◌};
ghost use Rattle.cube_session.specs.Session.{Runs};
ghost use Rattle.cube_run.specs.Carrying.{CarriesOn};
ghost use Rattle.cube_run.specs.Ends.{ended};
ghost use Rattle.cube_run.specs.Serving.{Serves};

use crate::exit::Status;
use crate::pull::{pull, room};
use cube_session::Session;
use cube_state::Stop;
use script_lang::Lines;
use site_core::{Site, Source};
use std::alloc::Global;

/// Pulls a script piece by piece, and never more than one byte past the limit. After each pull it carries out every command that
/// is whole by then, and emits its reply. Of a pull that passes the limit no byte is looked at, and behind the end there is no pull.
pub fn serve<S: Source, T: Site>(
    alloc: Global,
    session: &mut Session,
    source: &mut S,
    site: &mut T,
    limit: u64,
) -> Result<(), Status>
    requires limit { limit ≤ 2 ^ 30 }
    requires runs { Runs T.Site site.old session.old.held session.old.pages }
    ensures { Serves S.Source T.Site session.old.held limit source.old source.new site.old site.new (ended result) }
{
    let mut lines = Lines::new(alloc);
    let mut taken = 0;
    loop {
        let mut buffer = room(alloc, lines.give_back(), (limit + 1 - taken) as usize)?;
        let count = pull(source, &mut buffer)?;
        if count == 0 {
            lines.end();
            return Ok(carry_out(session, &mut lines, site)?);
        }
        taken += count as u64;
        if taken > limit {
            return Err(Status::TooLong);
        }
        lines.take_over(buffer, count);
        carry_out(session, &mut lines, site)?;
    }
}

/// Carries out the commands that are whole by now, and emits the reply to each.
fn carry_out<T: Site>(session: &mut Session, lines: &mut Lines, site: &mut T) -> Result<(), Stop>
    requires { Runs T.Site site.old session.old.held session.old.pages }
    ensures { CarriesOn T.Site session.old.held session.new.held lines.old lines.new site.old site.new session.new.pages result }
{
    while let Some(command) = lines.next_command()? {
        session.command(site, command)?;
    }
    Ok(())
}
