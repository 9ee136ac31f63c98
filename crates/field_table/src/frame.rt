// Frames: a text stands behind its length, which takes one unit where it is below 65535. A longer one takes three: 65535,
// and its higher and its lower half.
ghost use Rattle.std.specs.Prelude.{◌≡◌, ◌≤◌, ◌<◌, ◌+◌, ◌^◌, ◌++◌, length, drop, min, flat_map, chars, slice_range, OnOk, OnErr};
ghost use Rattle.std.specs.Char.Escape.{encode_utf16};
ghost use Rattle.field_table.specs.Frames.{AreWhole, behind, first_text, frame, length_units, text_begin, text_end};

use vba_base::NoMemory;

/// The first unit of a length that takes three.
const LONG: u16 = 65_535;

/// How many units there may be.
const MOST_UNITS: usize = 4_294_967_295;

/// The text of the first frame.
pub fn first_text(units: &[u16]) -> &[u16]
    requires { text_end units.now ≤ length units.now }
    ensures { result.now ≡ first_text units.now }
{
    let (begin, end) = text_range(units);
    &units[begin..end]
}

/// The units behind so many frames.
#[tactic(auto, using(crate::proofs::Frames::whole_at, crate::proofs::Frames::behind_more))]
pub fn behind(units: &[u16], count: u32) -> &[u16]
    requires { AreWhole count units.now }
    ensures { result.now ≡ behind count units.now }
{
    let mut rest = units;
    for _ in 0..count {
        rest = behind_first(rest);
    }
    rest
}

/// The units behind the first frame.
fn behind_first(units: &[u16]) -> &[u16]
    requires { text_end units.now ≤ length units.now }
    ensures { result.now ≡ drop (text_end units.now) units.now }
{
    let (_, end) = text_range(units);
    &units[end..]
}

/// Where the text of the first frame begins, and where it ends.
fn text_range(units: &[u16]) -> (usize, usize)
    requires { text_end units.now ≤ length units.now }
    ensures begin { result.0 ≡ text_begin units.now }
    ensures end { result.1 ≡ text_end units.now }
{
    if units[0] == LONG {
        let length = usize::from(units[1]) * 65_536 + usize::from(units[2]);
        (3, 3 + length)
    } else {
        (1, 1 + usize::from(units[0]))
    }
}

/// Adds a text. Without memory, and where there would be more than 4294967295 units, nothing changes.
pub fn push_frame(units: &mut Vec<u16>, text: &[u16]) -> Result<(), NoMemory>
    ensures ok { OnOk result (units.new.items ≡ units.old.items ++ frame text.now) }
    ensures fit { OnOk result (length units.new.items < 2 ^ 32) }
    ensures err { OnErr result (units.new.items ≡ units.old.items) }
{
    let end = units.len();
    push_length(units, text.len())?;
    if units.extend_from_slice(text).is_err() {
        units.truncate(end);
        return Err(NoMemory);
    }
    Ok(())
}

/// Adds the units of a text, as `push_frame` does.
pub fn push_text_frame(units: &mut Vec<u16>, text: &str) -> Result<(), NoMemory>
    ensures ok { OnOk result (units.new.items ≡ units.old.items ++ frame (flat_map encode_utf16 (chars text.now))) }
    ensures fit { OnOk result (length units.new.items < 2 ^ 32) }
    ensures err { OnErr result (units.new.items ≡ units.old.items) }
{
    let end = units.len();
    push_length(units, unit_count(text))?;
    if push_units(units, text).is_err() {
        units.truncate(end);
        return Err(NoMemory);
    }
    Ok(())
}

/// Adds the length of a text. Without memory, and where the text would end behind 4294967295 units, nothing changes.
fn push_length(units: &mut Vec<u16>, size: usize) -> Result<(), NoMemory>
    ensures ok { OnOk result (units.new.items ≡ units.old.items ++ length_units size) }
    ensures fit { OnOk result (length units.new.items + size < 2 ^ 32) }
    ensures err { OnErr result (units.new.items ≡ units.old.items) }
{
    let own = if size < usize::from(LONG) { 1 } else { 3 };
    if units.len().saturating_add(own).saturating_add(size) > MOST_UNITS {
        return Err(NoMemory);
    }
    if size < usize::from(LONG) {
        units.push(size as u16)?;
    } else {
        let halves = [LONG, (size / 65_536) as u16, (size % 65_536) as u16];
        units.extend_from_slice(&halves)?;
    }
    Ok(())
}

/// How many units a text has. The greatest number of that type where they are more.
fn unit_count(text: &str) -> usize
    ensures { result ≡ min usize.MAX (length (flat_map encode_utf16 (chars text.now))) }
{
    let mut count: usize = 0;
    for character in text.chars() {
        count = count.saturating_add(character.len_utf16());
    }
    count
}

/// Adds the units of a text. Without memory nothing changes.
fn push_units(units: &mut Vec<u16>, text: &str) -> Result<(), NoMemory>
    ensures ok { OnOk result (units.new.items ≡ units.old.items ++ flat_map encode_utf16 (chars text.now)) }
    ensures err { OnErr result (units.new.items ≡ units.old.items) }
{
    let end = units.len();
    let mut buffer = [0; 2];
    for character in text.chars() {
        let added = character.encode_utf16(&mut buffer);
        if units.extend_from_slice(added).is_err() {
            units.truncate(end);
            return Err(NoMemory);
        }
    }
    Ok(())
}
