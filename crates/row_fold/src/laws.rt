//! Laws of folding the rows of facts.
ghost use Rattle.row_fold.specs.Laws.{ListsFold, ListsJoin, RowsAdd, RowsFold};

/// Folding the rows of facts by a part of their keys gives the same as grouping the facts by that part.
pub fn rows_of_facts_fold()
    ensures { RowsFold }
{}

/// The same for the rows of several lists of facts, one after another.
pub fn lists_of_facts_fold()
    ensures { ListsFold }
{}

/// The rows of several lists of facts, folded by their whole keys, are the rows of all the facts.
pub fn lists_of_facts_join()
    ensures { ListsJoin }
{}

/// The rows of facts whose masses fit in 128 bits add up, so that no sum in a fold of them passes 128 bits.
pub fn rows_of_facts_add()
    ensures { RowsAdd }
{}
