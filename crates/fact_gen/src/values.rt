//! The values of attributes, drawn one after the other.
ghost use Rattle.std.specs.Prelude.{◌≡◌, ◌≤◌, [], ◌∷◌, ◌++◌, OnOk, IsTrue, length, codes, decimal};
ghost use Rattle.std.specs.List.{list_all};
ghost use Rattle.lcg.specs.Draw.{next_state, draw, state_after};
ghost use Rattle.cube_schema.specs.declared.schema.Attr as declared;
ghost use Rattle.cube_schema.specs.Words.{is_in_range};
ghost use Rattle.fact_gen.specs.Generated.{value_of, values_from};

use cube_schema::{Attr, Kind};
use fact_batch::BatchBuilder;
use fact_model::Memory;
use itoa::Buffer;
use lcg::Draws;

/// How many texts an attribute may get, even where its `max` is greater.
const MOST_TEXTS: u32 = 1000;

/// How many numbers an attribute may get: those from 0 to 999.
const NUMBERS: u64 = 1000;

/// Draws a value for each attribute in order. What the text holds does not matter.
pub(crate) fn draw_values(
    attrs: &[Attr],
    draws: &mut Draws,
    text: &mut Vec<u8>,
    builder: &mut BatchBuilder,
) -> Result<(), Memory>
    requires { IsTrue (list_all (λ (attr : declared.Attr). is_in_range attr.kind) attrs.now) }
    ensures values { OnOk result (builder.new ≡ record builder.old { values = builder.old.values ++ values_from attrs.now draws.old.state }) }
    ensures after { OnOk result (draws.new.state ≡ state_after draws.old.state (length attrs.now)) }
{
    for attr in attrs {
        draw_value(attr.kind, draws, text, builder)?;
    }
    Ok(())
}

/// Draws a value of this kind.
fn draw_value(
    kind: Kind,
    draws: &mut Draws,
    text: &mut Vec<u8>,
    builder: &mut BatchBuilder,
) -> Result<(), Memory>
    requires { IsTrue (is_in_range kind) }
    ensures value { OnOk result (builder.new ≡ record builder.old { values = builder.old.values ++ value_of kind (draw draws.old.state) ∷ [] }) }
    ensures after { draws.new.state ≡ next_state draws.old.state }
{
    let drawn = draws.draw();
    match kind {
        Kind::Word { max } => {
            write_text(drawn % u64::from(max.min(MOST_TEXTS)), text)?;
            builder.push_text(text.as_slice())
        }
        Kind::Number => builder.push_value(drawn % NUMBERS),
    }
}

/// Writes the text of a number over what was in it: the letter `v`, and the number in decimal.
fn write_text(number: u64, text: &mut Vec<u8>) -> Result<(), Memory>
    ensures text { OnOk result (text.new.items ≡ codes "v" ++ decimal number) }
    ensures short { OnOk result (length text.new.items ≤ 255) }
{
    text.clear();
    text.push(b'v')?;
    Ok(text.extend_from_slice(Buffer::new().format(number).as_bytes())?)
}
