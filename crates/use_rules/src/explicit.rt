//! The option Explicit.

ghost use Rattle.std.specs.Prelude.{◌≡◌};
ghost use Rattle.declared_names.specs.binder.specs.Sources as sources;
ghost use Rattle.declared_names.specs.View.{scope_view};
ghost use Rattle.declared_names.specs.module_parts.specs.View.{parts_view};

use declared_names::Scope;
use declared_names::module_parts::Part;
use vba_tree::{LineTree, OptionChoice};

/// Has the module of a scope the option Explicit?
pub fn is_explicit(scope: Scope) -> bool
    ensures { result ≡ sources.has_choice sources.is_explicit (scope_view scope.entry).here.source.parts }
{
    let here = scope.here;
    let parts = here.source.parts;
    has_explicit(parts.as_slice())
}

/// Have parts the option Explicit?
fn has_explicit(parts: &[Part]) -> bool
    ensures { result ≡ sources.has_choice sources.is_explicit (parts_view parts.now) }
{
    for part in parts {
        if let Part::WholeLine(LineTree::Option(option)) = part {
            if let OptionChoice::Explicit(_) = option.choice {
                return true;
            }
        }
    }
    false
}
