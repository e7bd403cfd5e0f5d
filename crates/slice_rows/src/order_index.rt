//! Points in an order that is kept beside them, so that none is moved.
ghost use Rattle.std.specs.Prelude.{◌≡◌, ◌<◌, IfOk, get_or, length};
ghost use Rattle.std.specs.List.{range_with_len};
ghost use Rattle.cube_point.specs.declared.point.Entry as entries;
ghost use Rattle.point_groups.specs.Bare.{nowhere};
ghost use Rattle.slice_rows.specs.Grouped.{AreNumbers, picked};

use fact_model::Memory;
use point_groups::FlatPoints;
use std::alloc::Global;
use std::marker::Model;

/// Points, which contracts see as the list of them in the order of the numbers.
#[derive(Drop)]
pub(crate) struct OrderedPoints {
    points: FlatPoints,
    numbers: Vec<usize>,
}

impl Model for OrderedPoints {
    ghost use Rattle.std.specs.Prelude.{List};
    ghost use Rattle.cube_point.specs.declared.point.Entry.{Entry};
    ghost use Rattle.slice_rows.specs.Grouped.{AreNumbers, picked};

    ghost Value = { List Entry };

    ghost view = { λ o. picked o.points o.numbers.items };

    ghost invariant = { λ o. AreNumbers o.points o.numbers.items };
}

impl OrderedPoints {
    /// The points of these numbers.
    pub fn new(points: FlatPoints, numbers: Vec<usize>) -> OrderedPoints
        requires { AreNumbers points numbers.items }
        ensures { result ≡ picked points numbers.items }
    {
        OrderedPoints { points, numbers }
    }

    /// The points as they stand.
    pub fn in_turn(alloc: Global, points: FlatPoints) -> Result<OrderedPoints, Memory>
        ensures { IfOk result (λ ordered. ordered ≡ points) }
    {
        let numbers = each_number(alloc, points.len())?;
        Ok(OrderedPoints { points, numbers })
    }

    /// How many points there are.
    pub fn len(&self) -> usize
        ensures { result ≡ length self.now }
    {
        self.numbers.len()
    }

    /// All points, and the number among them of the one at a place in the order.
    pub fn at(&self, place: usize) -> (&FlatPoints, usize)
        requires { place < length self.now }
        ensures { (d : entries.Entry) → get_or result.0.now result.1 nowhere ≡ get_or self.now place d }
    {
        (&self.points, self.numbers[place])
    }
}

/// The numbers of so many points, as these stand.
pub(crate) fn each_number(alloc: Global, count: usize) -> Result<Vec<usize>, Memory>
    ensures { IfOk result (λ numbers. numbers.items ≡ range_with_len 0 count) }
{
    let mut numbers = Vec::with_capacity(alloc, count)?;
    for number in 0..count {
        numbers.push(number)?;
    }
    Ok(numbers)
}
