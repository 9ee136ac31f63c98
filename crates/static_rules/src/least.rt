//! The least refusal that was found so far.

ghost use Rattle.std.specs.Prelude.{◌≡◌, [], ◌∷◌, Some, if◌then◌else◌};
ghost use Rattle.static_rules.specs.Broken.{least_of, lesser, not_later};

use vba_base::{Place, Refusal};

fn not_later(one: Refusal, other: Refusal) -> bool
    ensures { result ≡ not_later one other }
{
    let (at, behind) = (one.place, other.place);
    at.module < behind.module
        || (at.module == behind.module
            && (at.line < behind.line
                || (at.line == behind.line
                    && (at.column < behind.column
                        || (at.column == behind.column && one.rule <= other.rule)))))
}

/// Keeps the lesser of what was found and one more.
pub fn note(least: &mut Option<Refusal>, refusal: Refusal)
    ensures { least.new ≡ Some (lesser least.old refusal) }
{
    *least = match *least {
        Some(found) if not_later(found, refusal) => Some(found),
        _ => Some(refusal),
    };
}

/// The same of a rule that is broken at a place, or isn't.
pub fn note_if(least: &mut Option<Refusal>, is_broken: bool, rule: u8, place: Place)
    ensures { least.new ≡ least_of least.old (if is_broken then record { rule = rule; place = place } ∷ [] else []) }
{
    if is_broken {
        note(least, Refusal { rule, place });
    }
}
