//! The numbers of measures, drawn one after the other.
ghost use Rattle.std.specs.Prelude.{◌≡◌, ◌++◌, OnOk, length};
ghost use Rattle.lcg.specs.Draw.{next_state, draw, state_after};
ghost use Rattle.fact_gen.specs.Generated.{measure_of, measures_from};

use fact_batch::BatchBuilder;
use fact_model::{Memory, Text};
use lcg::Draws;

/// How many numbers a measure may get: those from -1000 to 1000.
const NUMBERS: u64 = 2001;

/// The greatest of them.
const GREATEST: i128 = 1000;

/// Draws a number for each measure in order.
pub(crate) fn draw_measures(
    names: &[Text],
    draws: &mut Draws,
    builder: &mut BatchBuilder,
) -> Result<(), Memory>
    ensures measures { OnOk result (builder.new ≡ record builder.old { numbers = builder.old.numbers ++ measures_from names.now draws.old.state }) }
    ensures after { OnOk result (draws.new.state ≡ state_after draws.old.state (length names.now)) }
{
    for _name in names {
        builder.push_number(draw_measure(draws))?;
    }
    Ok(())
}

/// Draws a number of a measure.
fn draw_measure(draws: &mut Draws) -> i128
    ensures measure { result ≡ measure_of (draw draws.old.state) }
    ensures after { draws.new.state ≡ next_state draws.old.state }
{
    (draws.draw() % NUMBERS) as i128 - GREATEST
}
