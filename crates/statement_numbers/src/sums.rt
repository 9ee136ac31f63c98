ghost use Rattle.std.specs.Prelude.{◌≡◌, ◌+◌, IfOk};

use vba_base::NoMemory;

/// The sum of two numbers of statements. No body has more than numbers can tell.
pub fn plus(number: u32, count: u32) -> Result<u32, NoMemory>
    ensures { IfOk result (λ sum. sum ≡ number + count) }
{
    number.checked_add(count).ok_or(NoMemory)
}
