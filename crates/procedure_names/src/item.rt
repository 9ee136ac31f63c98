//! What nodes of an expression leave: the names that they use.

ghost use Rattle.std.specs.Prelude.{◌≡◌, [], ◌∷◌, ◌++◌, map, IfOk, OnOk};
ghost use Rattle.declared_names.specs.View.{use_view};
ghost use Rattle.procedure_names.specs.Used as plain;
ghost use Rattle.procedure_names.specs.Used.{used_view, item_view, stack};

use declared_names::Use;
use std::alloc::Global;
use vba_base::NoMemory;
use vba_words::Identifier;

/// A name where it is used.
#[derive(Clone, Copy)]
pub struct Used<'a> {
    pub how: Use,
    pub name: &'a Identifier,
}

/// An expression or arguments, by the names that they use.
pub(crate) enum Item<'a> {
    /// A name alone: what stands round it tells how it is used.
    Name(&'a Identifier),
    /// Any other expression.
    Tree(Vec<Used<'a>>),
    Arguments(Vec<Used<'a>>),
}

impl Drop for Item<'_> {
    fn drop(self) {
        match self {
            Item::Name(_name) => {}
            Item::Tree(_names) => {}
            Item::Arguments(_names) => {}
        }
    }
}

impl<'a> Item<'a> {
    /// The names of an expression that is used in a way.
    fn names(self, alloc: Global, how: Use) -> Result<Vec<Used<'a>>, NoMemory>
        ensures { IfOk result (λ names. map used_view names.items ≡ plain.names_of (use_view how) (item_view self.entry)) }
    {
        match self {
            Item::Name(name) => one_name(alloc, how, name),
            Item::Tree(names) => Ok(names),
            Item::Arguments(_names) => Ok(Vec::new(alloc)),
        }
    }

    /// The names in arguments.
    fn arguments(self, alloc: Global) -> Vec<Used<'a>>
        ensures { map used_view result.items ≡ plain.arguments_of (item_view self.entry) }
    {
        match self {
            Item::Name(_name) => Vec::new(alloc),
            Item::Tree(_names) => Vec::new(alloc),
            Item::Arguments(names) => names,
        }
    }
}

/// A name alone, used in a way. What is called by its name needs no variable.
fn one_name<'a>(alloc: Global, how: Use, name: &'a Identifier) -> Result<Vec<Used<'a>>, NoMemory>
    ensures { IfOk result (λ names. map used_view names.items ≡ plain.names_of (use_view how) (plain.bare name.now)) }
{
    let mut names = Vec::new(alloc);
    match how {
        Use::Called => {}
        Use::Plainly | Use::BeforeDot => names.push(Used { how, name })?,
    }
    Ok(names)
}

/// Adds an item.
#[tactic(auto, using(crate::proofs::Stacks::stack_push))]
pub(crate) fn push_item<'a>(items: &mut Vec<Item<'a>>, item: Item<'a>) -> Result<(), NoMemory>
    ensures { OnOk result (stack items.new.items ≡ item_view item.entry ∷ stack items.old.items) }
{
    Ok(items.push(item)?)
}

/// Takes the last item: the names of an expression that is used in a way.
#[tactic(auto, using(crate::proofs::Stacks::stack_push))]
pub(crate) fn take_tree<'a>(
    alloc: Global,
    items: &mut Vec<Item<'a>>,
    how: Use,
) -> Result<Vec<Used<'a>>, NoMemory>
    ensures names { IfOk result (λ names. map used_view names.items ≡ plain.last_tree (use_view how) (stack items.old.items)) }
    ensures rest { OnOk result (stack items.new.items ≡ plain.rest (stack items.old.items)) }
{
    match items.pop() {
        Some(item) => item.names(alloc, how),
        None => Ok(Vec::new(alloc)),
    }
}

/// Takes the last item: the names in arguments.
#[tactic(auto, using(crate::proofs::Stacks::stack_push))]
pub(crate) fn take_arguments<'a>(alloc: Global, items: &mut Vec<Item<'a>>) -> Vec<Used<'a>>
    ensures names { map used_view result.items ≡ plain.last_arguments (stack items.old.items) }
    ensures rest { stack items.new.items ≡ plain.rest (stack items.old.items) }
{
    match items.pop() {
        Some(item) => item.arguments(alloc),
        None => Vec::new(alloc),
    }
}

/// Names, and others behind them.
#[tactic(auto, using(std::proofs::lemmas::Grind::common_steps))]
pub(crate) fn joined<'a>(
    mut names: Vec<Used<'a>>,
    others: Vec<Used<'a>>,
) -> Result<Vec<Used<'a>>, NoMemory>
    ensures { IfOk result (λ all. map used_view all.items ≡ map used_view names.entry.items ++ map used_view others.entry.items) }
{
    names.extend_from_slice(others.as_slice())?;
    Ok(names)
}
