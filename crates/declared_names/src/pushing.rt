//! Entries, added to others.

ghost use Rattle.std.specs.Prelude.{◌≡◌, [], ◌∷◌, ◌++◌, map, OnOk};
ghost use Rattle.vba_module.specs.Headers.{all_of};
ghost use Rattle.vba_tree.specs.View.{listed_view, variable_view, constant_view};
ghost use Rattle.declared_names.specs.View.{entry_view};
ghost use Rattle.declared_names.specs.Entries.{constant_entries, variable_entries};

use crate::access::{is_public_constant, is_public_word};
use crate::entry::{Entry, What};
use vba_base::NoMemory;
use vba_tree::{AccessWord, Constant, Constants, Variable, VariableWord, Variables};

/// Adds an entry.
#[tactic(auto, using(crate::proofs::Pushes::entries_push))]
pub(crate) fn push_entry<'a>(entries: &mut Vec<Entry<'a>>, entry: Entry<'a>) -> Result<(), NoMemory>
    ensures { OnOk result (map entry_view entries.new.items ≡ map entry_view entries.old.items ++ entry_view entry.entry ∷ []) }
{
    Ok(entries.push(entry)?)
}

/// Adds a variable.
pub(crate) fn push_variable<'a>(
    entries: &mut Vec<Entry<'a>>,
    word: VariableWord,
    variable: &'a Variable,
) -> Result<(), NoMemory>
    ensures { OnOk result (map entry_view entries.new.items ≡ map entry_view entries.old.items ++ variable_entries word (variable_view variable.now ∷ [])) }
{
    let entry = Entry {
        name: &variable.name,
        is_public: is_public_word(word),
        what: What::Variable(variable),
    };
    push_entry(entries, entry)
}

/// Adds the variables that a statement declares.
pub(crate) fn push_variables<'a>(
    entries: &mut Vec<Entry<'a>>,
    variables: &'a Variables,
) -> Result<(), NoMemory>
    ensures { OnOk result (map entry_view entries.new.items
        ≡ map entry_view entries.old.items ++ variable_entries variables.now.word (all_of (listed_view variable_view variables.now.variables))) }
{
    let word = variables.word;
    push_variable(entries, word, &variables.variables.first)?;
    let mut left = variables.variables.others.as_slice();
    'variables: while let [next, behind @ ..] = left {
        push_variable(entries, word, &next.item)?;
        left = behind;
    }
    Ok(())
}

/// Adds a constant.
pub(crate) fn push_constant<'a>(
    entries: &mut Vec<Entry<'a>>,
    access: Option<AccessWord>,
    constant: &'a Constant,
) -> Result<(), NoMemory>
    ensures { OnOk result (map entry_view entries.new.items ≡ map entry_view entries.old.items ++ constant_entries access (constant_view constant.now ∷ [])) }
{
    let entry = Entry {
        name: &constant.name,
        is_public: is_public_constant(access),
        what: What::Constant(constant),
    };
    push_entry(entries, entry)
}

/// Adds the constants that a statement declares.
pub(crate) fn push_constants<'a>(
    entries: &mut Vec<Entry<'a>>,
    constants: &'a Constants,
) -> Result<(), NoMemory>
    ensures { OnOk result (map entry_view entries.new.items
        ≡ map entry_view entries.old.items ++ constant_entries constants.now.access (all_of (listed_view constant_view constants.now.constants))) }
{
    let access = constants.access;
    push_constant(entries, access, &constants.constants.first)?;
    let mut left = constants.constants.others.as_slice();
    'constants: while let [next, behind @ ..] = left {
        push_constant(entries, access, &next.item)?;
        left = behind;
    }
    Ok(())
}
