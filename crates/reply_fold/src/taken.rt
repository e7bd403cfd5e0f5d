//! The rows of the records so far.
ghost use Rattle.std.specs.Prelude.{◌≡◌, ◌≢◌, ◌<◌, ◌≤◌, ◌∷◌, ℕ, suc, List, Err, IfErr, OnOk};
ghost use Rattle.csv.specs.Records.{fields_of};
ghost use Rattle.reply_fold.specs.Replies.{all_ended, with_front};
ghost use Rattle.reply_fold.specs.Taking.{left};
ghost use Rattle.reply_fold.specs.declared.fault.Fault.TheVariants as faults;

use crate::fault::Fault;
use crate::fields::is_end;
use crate::rows::read_row;
use csv::ByteRecord;
use cube_schema::Schema;
use fact_model::{Rows, Slice};
use std::alloc::Global;

/// The rows of the records so far.
#[derive(Drop)]
pub(crate) struct Taken {
    /// The rows of all replies.
    pub(crate) rows: Rows,
    /// How many of them belong to the current reply.
    pub(crate) begun: u64,
}

impl Taken {
    /// Takes record `number`, which adds a row or ends a reply.
    pub(crate) fn take(
        &mut self,
        alloc: Global,
        schema: &Schema,
        slice: &Slice,
        number: u64,
        fields: &ByteRecord,
    ) -> Result<(), Fault>
        requires { self.old.begun < number }
        // For any records that follow.
        ensures goes { OnOk result ((records : List (List (List ℕ))) → left schema.now slice.now self.old number (fields_of fields.now ∷ records)
            ≡ left schema.now slice.now self.new (suc number) records) }
        ensures begun { OnOk result (self.new.begun ≤ number) }
        ensures stops { IfErr result (λ why. why ≢ faults.Memory → (records : List (List (List ℕ)))
            → left schema.now slice.now self.old number (fields_of fields.now ∷ records) ≡ Err why) }
    {
        if is_end(alloc, self.begun, fields)? {
            self.begun = 0;
            return Ok(());
        }
        let row = read_row(alloc, schema, slice, number, fields)?;
        self.rows.push(row)?;
        self.begun += 1;
        Ok(())
    }

    /// The rows, if every reply has ended.
    pub(crate) fn into_rows(self) -> Result<Rows, Fault>
        ensures { result ≡ with_front self.rows (all_ended self.begun) }
    {
        let Taken { rows, begun } = self;
        if begun > 0 {
            return Err(Fault::Cut);
        }
        Ok(rows)
    }
}
