//! Reading the entries of a names file.
ghost use Rattle.std.specs.Prelude.{◌≡◌, ◌≢◌, ◌<◌, ◌-◌, ℕ, List, [], ◌++◌, OnOk, OnErr, IfOk, IfErr, MatchOption, length, if◌then◌else◌};
ghost use Rattle.spec_points.specs.Codes.{Text};
ghost use Rattle.attr_dict.specs.Admitting.{entry_text};
ghost use Rattle.attr_dict.specs.Entering.{can_enter, entered, EntersFront, HasRead};
ghost use Rattle.attr_dict.specs.Stops.{HasCause, StopsAt};

use crate::names::Names;
use cube_schema::Kind;
use fact_model::Memory;

/// Why names are not read.
#[derive(Clone, Copy, Debug, PartialEq, Eq)]
pub enum NamesStop {
    /// The entry that begins at this byte is the first that is cut off, is not of a text attribute, repeats a value or passes a `max`.
    Damaged(u64),
    /// Memory was short.
    Memory,
}

impl From<Memory> for NamesStop {
    ghost use Rattle.attr_dict.specs.declared.read.NamesStop.TheVariants as stops;

    ghost from_gives = { λ _ stop. stop ≡ stops.Memory };

    fn from(_memory: Memory) -> NamesStop {
        NamesStop::Memory
    }
}

/// The attribute and the text of the entry in front of the bytes, and what is behind it.
fn front_entry(bytes: &[u8]) -> Option<(usize, &[u8], &[u8])>
    ensures { MatchOption result ((e : ℕ × List ℕ) (tail : List ℕ) → bytes.now ≢ entry_text e ++ tail) (λ r. bytes.now ≡ entry_text (r.0, r.1.now) ++ r.2.now) }
{
    match bytes {
        [attr, len, more @ ..] => {
            let len = *len as usize;
            if more.len() < len {
                return None;
            }
            let (text, tail) = more.split_at(len);
            Some((*attr as usize, text, tail))
        }
        _ => None,
    }
}

/// Enters a text as the newest name of an attribute, where it can, and tells whether it did.
fn enter(kinds: &[Kind], names: &mut Vec<Names>, attr: usize, bytes: &[u8]) -> Result<bool, Memory>
    requires { length names.old.items ≡ length kinds.now }
    ensures same { length names.new.items ≡ length names.old.items }
    ensures could { IfOk result (λ could. could ≡ can_enter (record { kinds = kinds.now; names = names.old.items }) (attr, bytes.now)) }
    ensures names { IfOk result (λ could. names.new.items ≡ (if could then (entered (record { kinds = kinds.now; names = names.old.items }) (attr, bytes.now)).names else names.old.items)) }
    ensures unchanged { OnErr result (names.new.items ≡ names.old.items) }
{
    if attr >= kinds.len() {
        return Ok(false);
    }
    match kinds[attr] {
        Kind::Number => Ok(false),
        Kind::Word { max } => {
            if names[attr].len() >= max as usize {
                return Ok(false);
            }
            names[attr].enter(bytes)
        }
    }
}

/// Enters the entry in front of the bytes, and gives the bytes behind it. `place` is where the entry begins.
fn read_entry<'a>(
    kinds: &[Kind],
    names: &mut Vec<Names>,
    rest: &'a [u8],
    place: u64,
) -> Result<&'a [u8], NamesStop>
    requires { length names.old.items ≡ length kinds.now }
    ensures same { length names.new.items ≡ length names.old.items }
    ensures read { IfOk result (λ tail. EntersFront (record { kinds = kinds.now; names = names.old.items }) (record { kinds = kinds.now; names = names.new.items }) rest.now tail.now) }
    ensures stop { IfErr result (StopsAt (record { kinds = kinds.now; names = names.old.items }) rest.now place) }
    ensures unchanged { OnErr result (names.new.items ≡ names.old.items) }
{
    match front_entry(rest) {
        None => Err(NamesStop::Damaged(place)),
        Some((attr, text, tail)) => {
            if !enter(kinds, names, attr, text)? {
                return Err(NamesStop::Damaged(place));
            }
            Ok(tail)
        }
    }
}

/// Enters all entries of the bytes, up to the first that is faulty.
pub(crate) fn read_entries(
    kinds: &[Kind],
    names: &mut Vec<Names>,
    bytes: &[u8],
) -> Result<(), NamesStop>
    requires { length names.old.items ≡ length kinds.now }
    ensures read { OnOk result (HasRead (record { kinds = kinds.now; names = names.old.items }) (record { kinds = kinds.now; names = names.new.items }) bytes.now []) }
    ensures stop { IfErr result (HasCause (record { kinds = kinds.now; names = names.old.items }) bytes.now) }
    ensures some { (rest : List ℕ) × HasRead (record { kinds = kinds.now; names = names.old.items }) (record { kinds = kinds.now; names = names.new.items }) bytes.now rest }
{
    let mut rest = bytes;
    while !rest.is_empty() {
        let place = (bytes.len() - rest.len()) as u64;
        rest = read_entry(kinds, names, rest, place)?;
    }
    Ok(())
}
