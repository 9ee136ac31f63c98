use vba_base::{NoMemory, Units};

/// The longest source that can be lexed, in units.
pub const LONGEST: usize = 67_108_864;

/// Adds a text to a source.
pub fn push_text(units: &mut Units, text: &[u8]) -> Result<(), NoMemory> {
    for byte in text {
        units.push(u16::from(*byte))?;
    }
    Ok(())
}
