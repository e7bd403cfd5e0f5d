//! The command `level`.
ghost use Rattle.std.specs.Prelude.{◌≡◌, ◌++◌, IfOk, IfErr, OnOk, Some};
ghost use Rattle.cube_schema.specs.Lawful.{IsSchema};
ghost use Rattle.roll_up.specs.Levels.{Fit};
ghost use Rattle.roll_up.specs.Reading.{level_of};
ghost use Rattle.script_lang.specs.declared.command.Command.TheVariants as says;
ghost use Rattle.spec_machine.specs.Machine.{level_by, level_read, level_reply, levels_behind, read_reply};
ghost use Rattle.cube_state.specs.Levels.{FitSchema, leveled_by};
ghost use Rattle.cube_state.specs.Visits.{schema_of, store_of};

use cube_schema::Schema;
use cube_state::{State, Stop};
use fact_model::{Memory, Text};
use reply_text::{leveled, plain, refused_level};
use roll_up::{LevelList, read_level};
use script_lang::Block;
use std::alloc::Global;
use text_hash::Seed;

/// Appends the level `name` over the attribute `attr`, or refuses it for the first reason against it. Makes no call on a file. An error
/// means out of memory.
pub fn level(
    alloc: Global,
    state: &State,
    levels: &mut LevelList,
    name: &Text,
    attr: &Text,
    block: &Block,
) -> Result<Vec<u8>, Stop>
    requires fit { FitSchema (schema_of state.now) levels.old }
    ensures said { IfOk result (λ reply. reply.items ≡ leveled_by levels.old (store_of state.now) name.now attr.now block.now) }
    ensures added { OnOk result (levels.new ≡ levels_behind (schema_of state.now) levels.old (says.Level name.now attr.now block.now)) }
    ensures memory { IfErr result (λ stop. stop ≡ Stop.Memory) }
{
    match state.store() {
        None => Ok(plain(alloc, "refused no schema")?),
        Some(store) => {
            let seed = store.dicts.seed();
            let schema = &store.forest.schema;
            Ok(level_over(alloc, seed, schema, levels, name, attr, block)?)
        }
    }
}

/// The same, for a schema. A block that is too long is refused if the name and the attribute are not.
fn level_over(
    alloc: Global,
    seed: Seed,
    schema: &Schema,
    levels: &mut LevelList,
    name: &Text,
    attr: &Text,
    block: &Block,
) -> Result<Vec<u8>, Memory>
    requires lawful { IsSchema schema.now }
    requires fit { Fit schema.now levels.old }
    ensures said { IfOk result (λ reply. reply.items ≡ level_reply schema.now levels.old name.now attr.now block.now) }
    ensures added { OnOk result (levels.new ≡ levels.old ++ level_by (Some schema.now) levels.old name.now attr.now block.now) }
{
    let Block::Whole(text) = block else {
        return match read_level(alloc, seed, schema, levels, name, attr, b"") {
            Ok(_) => plain(alloc, "refused block"),
            Err(refusal) => refused_level(alloc, refusal),
        };
    };
    add_level(alloc, seed, schema, levels, name, attr, text.as_bytes())
}

/// The same, for the bytes of a block.
fn add_level(
    alloc: Global,
    seed: Seed,
    schema: &Schema,
    levels: &mut LevelList,
    name: &Text,
    attr: &Text,
    block: &[u8],
) -> Result<Vec<u8>, Memory>
    requires lawful { IsSchema schema.now }
    requires fit { Fit schema.now levels.old }
    ensures said { IfOk result (λ reply. reply.items ≡ read_reply (level_of schema.now levels.old name.now attr.now block.now)) }
    ensures added { OnOk result (levels.new ≡ levels.old ++ level_read (level_of schema.now levels.old name.now attr.now block.now)) }
{
    match read_level(alloc, seed, schema, levels, name, attr, block) {
        Ok(level) => {
            let reply = leveled(alloc, level.parents.len() as u64)?;
            levels.push(level)?;
            Ok(reply)
        }
        Err(refusal) => refused_level(alloc, refusal),
    }
}
