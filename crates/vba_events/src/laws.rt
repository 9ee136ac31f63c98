//! Laws of the definitions that `Links` is proved against. The functions do nothing: their contracts are the laws.
ghost use Rattle.std.specs.Prelude.{◌≡◌, ℕ, true};
ghost use Rattle.vba_events.specs.Links.{Linking, unlinked, connected, disconnected, same_link};
ghost use Rattle.vba_events.specs.Rising.{IsRising};
ghost use Rattle.vba_events.specs.declared.linked.Linked.{Linked};
ghost use Rattle.vba_values.specs.declared.object.ObjId.{ObjId};
ghost use Rattle.vba_values.specs.declared.object.ObjRef.{ObjRef};

/// The links stand by rising number, and the next number is above all of them, whatever is called.
pub fn numbers_rise()
    ensures first { IsRising unlinked }
    ensures connect { (old : Linking) (source : ObjRef) (sink : ObjId) (field : ℕ) → IsRising old
        → IsRising (connected old source sink field) }
    ensures disconnect { (old : Linking) (sink : ObjId) (field : ℕ) → IsRising old → IsRising (disconnected old sink field) }
{}

/// Two links count as the same exactly where they are equal.
pub fn same_links_are_equal()
    ensures same { (a b : Linked) → same_link a b ≡ true → a ≡ b }
    ensures itself { (a : Linked) → same_link a a ≡ true }
{}
