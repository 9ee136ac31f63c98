//! The stack of a pass over the nodes of an expression: values, and names that are looked up when they are taken.

ghost use Rattle.std.specs.Prelude.{◌≡◌, ◌∷◌, OnOk};
ghost use Rattle.constant_values.specs.Stack.{last, others};
ghost use Rattle.constant_values.specs.Names as plain;
ghost use Rattle.constant_values.specs.View.{item_view, outcomes};
ghost use Rattle.declared_names.specs.binder.specs.Scopes.{Scope as PlainScope};

use crate::known::Known;
use declared_names::Qualifier;
use vba_base::NoMemory;
use vba_words::Identifier;

/// What is known of an expression when its nodes are passed: its value, or the name that it is.
#[derive(Drop)]
pub enum Item<'a> {
    Value(Option<Known>),
    Name(&'a Identifier),
    /// A name behind what stands before its dot.
    Member {
        qualifier: Option<Qualifier<'a>>,
        name: &'a Identifier,
    },
}

/// Takes the last item: without one, an expression without a value.
pub fn pop<'a>(stack: &mut Vec<Item<'a>>) -> Item<'a>
    ensures item { (names : plain.Names) (s : PlainScope) → item_view names s result ≡ last (outcomes names s stack.old.items) }
    ensures stack { (names : plain.Names) (s : PlainScope) → outcomes names s stack.new.items ≡ others (outcomes names s stack.old.items) }
{
    match stack.pop() {
        Some(item) => item,
        None => Item::Value(None),
    }
}

/// Puts an item on the stack.
pub fn push<'a>(stack: &mut Vec<Item<'a>>, item: Item<'a>) -> Result<(), NoMemory>
    ensures { OnOk result ((names : plain.Names) (s : PlainScope) → outcomes names s stack.new.items ≡ item_view names s item.entry ∷ outcomes names s stack.old.items) }
{
    Ok(stack.push(item)?)
}
