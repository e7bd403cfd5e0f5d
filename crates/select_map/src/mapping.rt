//! Trees and the views that stand in them.
ghost use Rattle.std.specs.Prelude.{◌≡◌, ◌<◌, length};
ghost use Rattle.cube_schema.specs.declared.schema.Schema.{Schema};
ghost use Rattle.cube_schema.specs.Lawful.{IsSchema};
ghost use Rattle.select_map.specs.Views.{selected, tree_number};
ghost use Rattle.select_map.specs.Standing.{holds, first_holding};

use fact_model::ListOf;

/// How many arities a view may have: 0 to 8.
pub(crate) const ARITIES: usize = 9;

/// The views of one tree.
#[derive(Clone, Copy, Debug, PartialEq, Eq)]
pub struct Tree {
    /// The greatest arity of a view in the tree.
    pub dims: u8,
    /// The number of the view of each arity, from 0 to 8, if there is one.
    pub view_of: [Option<u32>; 9],
}

/// Trees in order.
pub type TreeList = ListOf<Tree>;

/// Which view stands in which tree.
#[derive(Debug, Drop, PartialEq, Eq, Clone)]
pub struct Mapping {
    /// The trees, in order of their numbers.
    pub trees: TreeList,
}

impl Tree {
    /// Whether the view stands in the tree.
    fn holds(&self, view: u32) -> bool
        ensures { result ≡ holds view self.now }
    {
        self.view_of.iter().any(|other| *other == Some(view))
    }
}

impl Mapping {
    /// The number of the tree that holds the view, or of all trees where none does.
    pub fn tree_of(&self, view: u32) -> u32
        // In the mapping of a schema this is how many views before it have its arity.
        ensures number { (schema : Schema) → IsSchema schema → self.now ≡ selected schema.views → view < length schema.views → result ≡ tree_number schema.views view }
        ensures first { result ≡ first_holding view self.now }
    {
        self.first_holding(view)
    }

    fn first_holding(&self, view: u32) -> u32
        ensures { result ≡ first_holding view self.now }
    {
        // No memory has room for more trees than a `u32` counts.
        let mut number: u32 = 0;
        for tree in self.trees.as_slice() {
            if tree.holds(view) {
                return number;
            }
            number = number.saturating_add(1);
        }
        number
    }
}
