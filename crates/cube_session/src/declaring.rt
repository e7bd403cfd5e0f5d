//! The command `schema`.
ghost use Rattle.cube_state.specs.Carried.{CarriesOutAlone};
ghost use Rattle.cube_state.specs.Frames.{RunsOn};
ghost use Rattle.script_lang.specs.declared.command.Command.TheVariants as says;

use crate::answering::plain;
use cube_schema::Schema;
use cube_state::{State, Stop};
use script_lang::Block;
use site_core::Site;
use std::alloc::Global;
use text_hash::Seed;

/// Declares the schema of a block where there is none, or refuses it. An error ends the session: a file failed, or memory ran out; then
/// the schema is declared or is not.
pub fn declare<T: Site>(
    alloc: Global,
    seed: Seed,
    state: &mut State,
    block: Block,
    site: &mut T,
) -> Result<Vec<u8>, Stop>
    requires runs { RunsOn T.Site site.old state.old }
    ensures carried { CarriesOutAlone T.Site (says.Schema block) state.old state.new site.old site.new result }
{
    let State::Empty = state else {
        return plain(alloc, "refused declared");
    };
    let Block::Whole(text) = block else {
        return plain(alloc, "refused schema block");
    };
    match Schema::read(alloc, text.as_bytes()) {
        Ok(schema) => {
            let store = forest_open::init(alloc, seed, site, schema)?;
            state.set(State::Idle(store));
            plain(alloc, "declared")
        }
        Err(refusal) => Ok(reply_text::refused_schema(alloc, refusal)?),
    }
}
