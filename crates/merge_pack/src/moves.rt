//! The next point of a merge, and how it is moved.

ghost use Rattle.std.specs.Prelude.{◌≡◌, ◌<◌, List, ◌∷◌, drop, length, OnErr, OnOk};
ghost use Rattle.fact_model.specs.Cell.{FitCells};
ghost use Rattle.cube_point.specs.declared.point.Entry as declared;
ghost use Rattle.spec_points.specs.Entries.{both};
ghost use Rattle.tree_pack.specs.Moving.{with_point};
ghost use Rattle.merge_pack.specs.Merging.{MayTake, first_point, side_of};

use crate::side::Side;
use cube_point::{Entry, Point};
use delta_agg::{DoesNotJoin, joined};
use std::cmp::Ordering;
use tree_pack::Packer;
use tree_scan::Scan;

/// The side of the next point, where this is the point of the next new one and the scan needs no page; None where no point is left.
pub(crate) fn next_side(scan: &Scan, new: &Option<Point>) -> Option<Side>
    ensures { (ds : List declared.Entry) → first_point ds ≡ new.now → result ≡ side_of scan.now.held ds }
{
    match (scan.next(), new) {
        (Some(old), Some(point)) => Some(match old.compare(point) {
            Ordering::Less => Side::Old,
            Ordering::Equal => Side::Both,
            Ordering::Greater => Side::New,
        }),
        (Some(_), None) => Some(Side::Old),
        (None, Some(_)) => Some(Side::New),
        (None, None) => None,
    }
}

/// Moves the next old point by copying its bytes.
pub(crate) fn move_old(scan: &mut Scan, packer: &mut Packer)
    requires some { 0 < length scan.old.held }
    requires may { (o : declared.Entry) (os : List declared.Entry) → scan.old.held ≡ o ∷ os → MayTake packer.old.at o }
    ensures moved { (o : declared.Entry) (os : List declared.Entry) → scan.old.held ≡ o ∷ os → packer.new.at ≡ with_point o packer.old.at }
    ensures scan { scan.new ≡ record scan.old { held = drop 1 scan.old.held } }
{
    if let Some(old) = scan.next() {
        packer.push_coded(&old);
    }
    scan.skip();
}

/// Moves the point that both sides have, where their cells join.
pub(crate) fn move_both(
    scan: &mut Scan,
    new: &Entry,
    packer: &mut Packer,
) -> Result<(), DoesNotJoin>
    requires some { 0 < length scan.old.held }
    requires measures { (o : declared.Entry) (os : List declared.Entry) → scan.old.held ≡ o ∷ os → o.cell.measures ≡ new.now.cell.measures }
    requires may { (o : declared.Entry) (os : List declared.Entry) → scan.old.held ≡ o ∷ os → FitCells o.cell new.now.cell → MayTake packer.old.at (both o new.now) }
    ensures moved { OnOk result ((o : declared.Entry) (os : List declared.Entry) → scan.old.held ≡ o ∷ os → packer.new.at ≡ with_point (both o new.now) packer.old.at) }
    ensures joins { OnOk result ((o : declared.Entry) (os : List declared.Entry) → scan.old.held ≡ o ∷ os → FitCells o.cell new.now.cell) }
    ensures apart { OnErr result ((o : declared.Entry) (os : List declared.Entry) → scan.old.held ≡ o ∷ os → FitCells o.cell new.now.cell → ⊥) }
    ensures scan { OnOk result (scan.new ≡ record scan.old { held = drop 1 scan.old.held }) }
{
    if let Some(old) = scan.next() {
        let point = joined(&old.entry(), new)?;
        packer.push(&point);
    }
    scan.skip();
    Ok(())
}

/// Moves the next new point.
pub(crate) fn move_new(new: &Entry, packer: &mut Packer)
    requires { MayTake packer.old.at new.now }
    ensures { packer.new.at ≡ with_point new.now packer.old.at }
{
    packer.push(new);
}
