//! A law about printed rows.
ghost use Rattle.reply_fold.specs.Laws.{RowsReadBack};

/// The printed reply with rows of a slice, within the limits of facts, is read back as these rows.
pub fn printed_rows_read_back()
    ensures { RowsReadBack }
{}
