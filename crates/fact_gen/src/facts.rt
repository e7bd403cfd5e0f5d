//! The facts of a schema, drawn one after the other.
ghost use Rattle.std.specs.Prelude.{◌≡◌, ◌≤◌, ◌<◌, [], ◌∷◌, ◌++◌, IfOk, OnOk, length};
ghost use Rattle.std.specs.List.{All};
ghost use Rattle.lcg.specs.Draw.{state_after};
ghost use Rattle.cube_schema.specs.Agreeing.{Agrees};
ghost use Rattle.cube_schema.specs.Lawful.{IsSchema};
ghost use Rattle.fact_batch.specs.Batch.{IsBetween};
ghost use Rattle.fact_gen.specs.Generated.{width, fact_from, generated};

use crate::measures::draw_measures;
use crate::values::draw_values;
use cube_schema::Schema;
use fact_batch::{Batch, BatchBuilder};
use fact_model::Memory;
use lcg::Draws;
use std::alloc::Global;

/// Makes so many facts of a schema from a number: the same ones for the same number. The state of `Draws` begins with it, and
/// each fact draws once for each attribute in order and then once for each measure in order. With y the number drawn, a
/// number attribute gets y mod 1000; a text attribute gets the letter `v` followed by y mod k in decimal, where k is the
/// lesser of its `max` and 1000; and a measure gets y mod 2001 - 1000. Only want of memory is an error.
pub fn generate(alloc: Global, schema: &Schema, start: u64, rows: u64) -> Result<Batch, Memory>
    requires lawful { IsSchema schema.now }
    requires few { rows ≤ 262144 }

    ensures facts { IfOk result (λ facts. facts ≡ generated schema.now start rows) }
    ensures agree { IfOk result (All (Agrees schema.now)) }
    ensures few { IfOk result (λ facts. length facts ≤ 262144) }
{
    let mut draws = Draws { state: start };
    let mut text = Vec::new(alloc);
    let attrs = schema.attrs.as_slice().len();
    let measures = schema.measures.as_slice().len();
    let mut builder = BatchBuilder::new(alloc, attrs, measures);
    for _row in 0..rows {
        draw_fact(schema, &mut draws, &mut text, &mut builder)?;
    }
    Ok(builder.finish())
}

/// Draws one fact: its values, and then its measures. What the text holds does not matter.
#[tactic(auto, using(lcg::proofs::Steps::state_after_add))]
fn draw_fact(
    schema: &Schema,
    draws: &mut Draws,
    text: &mut Vec<u8>,
    builder: &mut BatchBuilder,
) -> Result<(), Memory>
    requires lawful { IsSchema schema.now }
    requires between { IsBetween (length schema.now.attrs) (length schema.now.measures) builder.old }
    requires few { length builder.old.facts < 262144 }
    ensures fact { OnOk result (builder.new ≡ record builder.old { facts = builder.old.facts ++ fact_from schema.now draws.old.state ∷ [] }) }
    ensures after { OnOk result (draws.new.state ≡ state_after draws.old.state (width schema.now)) }
{
    draw_values(schema.attrs.as_slice(), draws, text, builder)?;
    draw_measures(schema.measures.as_slice(), draws, builder)?;
    builder.end_fact();
    Ok(())
}
