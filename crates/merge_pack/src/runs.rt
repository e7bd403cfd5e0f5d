//! Old points that are moved at once.

ghost use Rattle.std.specs.Prelude.{◌≡◌, ◌<◌, ◌≤◌, true, drop, length, take};
ghost use Rattle.leaf_pack.specs.Leaf.{MayAddAll};
ghost use Rattle.page_entry.specs.Entries.{ascend, entry_before};
ghost use Rattle.page_fmt.specs.Writing.{leaf_arity};
ghost use Rattle.tree_pack.specs.Moving.{with_points};
ghost use Rattle.merge_pack.specs.Merging.{turns_at};
ghost use Rattle.merge_pack.specs.Ready.{ComeBefore, HasRoomFor, MayMoveAtOnce};

use cube_point::Point;
use tree_pack::Packer;
use tree_scan::Scan;

/// The arity of the next old point; 0 where none is held.
pub(crate) fn next_arity(scan: &Scan) -> u8
    ensures { result ≡ leaf_arity scan.now.held }
{
    match scan.next() {
        Some(old) => old.arity(),
        None => 0,
    }
}

/// Whether the buffer is of another arity.
pub(crate) fn turns(packer: &Packer, arity: u8) -> bool
    ensures { result ≡ turns_at packer.now.at.buffer arity }
{
    match packer.arity() {
        Some(buffered) => buffered != arity,
        None => false,
    }
}

/// How many of the next old points may be moved at once, as far as the page and the leaf let them: none where a level is full, the leaf is of
/// another arity, or the trees are of two shapes.
fn room_at_once(scan: &Scan, packer: &Packer) -> usize
    requires arity { leaf_arity scan.now.held ≤ 8 }
    ensures { 0 < result → HasRoomFor result scan.now packer.now.at }
{
    let arity = next_arity(scan);
    if packer.full().is_some() || turns(packer, arity) || scan.shape() != packer.shape() {
        return 0;
    }
    scan.held().min(packer.room_left(arity))
}

/// How many of so many next old points come before the next new one, where there is one.
fn count_before(scan: &Scan, most: usize, new: &Option<Point>) -> usize
    requires some { 0 < most }
    requires held { most ≤ length scan.now.held }
    requires order { ascend entry_before scan.now.held ≡ true }
    ensures within { result ≤ most }
    ensures before { ComeBefore new.now (take result scan.now.held) }
{
    match new {
        Some(point) => scan.run(most).count_before(point),
        None => most,
    }
}

/// How many of the next old points may be moved at once, where `new` is the point of the next new one.
pub(crate) fn count_at_once(scan: &Scan, packer: &Packer, new: &Option<Point>) -> usize
    requires arity { leaf_arity scan.now.held ≤ 8 }
    requires order { ascend entry_before scan.now.held ≡ true }
    ensures { 0 < result → MayMoveAtOnce result new.now scan.now packer.now.at }
{
    let most = room_at_once(scan, packer);
    if most == 0 {
        return 0;
    }
    count_before(scan, most, new)
}

/// Moves so many of the next old points at once, by copying their bytes.
pub(crate) fn move_run(scan: &mut Scan, packer: &mut Packer, count: usize)
    requires some { 0 < count }
    requires held { count ≤ length scan.old.held }
    requires shape { scan.old.shape ≡ packer.old.at.shape }
    requires may { MayAddAll packer.old.at.shape packer.old.at.buffer (take count scan.old.held) }
    ensures moved { packer.new.at ≡ with_points (take count scan.old.held) packer.old.at }
    ensures scan { scan.new ≡ record scan.old { held = drop count scan.old.held } }
{
    packer.push_run(&scan.run(count));
    scan.skip_run(count);
}
