// The kinds of the operands that stand where a way comes to.
ghost use Rattle.std.specs.Prelude.{◌≡◌, ◌↔◌, List, [], ◌∷◌, None, Option, map, if◌then◌else◌, IfOk, IsTrue, OnOk, slice_index_or};
ghost use Rattle.pcode.specs.WellFormed as plain;
ghost use Rattle.pcode.specs.WellFormed.{Way, a_value, a_path, value_off, path_off, taken_off, kinds_pushed, kinds_reordered};
ghost use Rattle.code_check.specs.Effects.{takes_off, values_off};
ghost use Rattle.code_check.specs.View.{kind_view, operands_view};

use crate::effects::Takes;
use std::alloc::Global;
use vba_base::NoMemory;

/// What an operand is: a value, or where one is.
#[derive(Clone, Copy)]
pub enum Kind {
    Value,
    Path,
}

/// Kinds of operands, the last one on top.
#[derive(Drop)]
pub struct Operands {
    pub kinds: Vec<Kind>,
}

impl Operands {
    pub fn new(alloc: Global) -> Operands
        ensures { operands_view result ≡ [] }
    {
        Operands {
            kinds: Vec::new(alloc),
        }
    }

    pub fn put(&mut self, kind: Kind) -> Result<(), NoMemory>
        ensures { OnOk result (operands_view self.new ≡ kind_view kind ∷ operands_view self.old) }
    {
        self.kinds.push(kind)?;
        Ok(())
    }

    pub fn is_empty(&self) -> bool
        ensures { IsTrue result ↔ (operands_view self.now ≡ []) }
    {
        self.kinds.is_empty()
    }

    pub fn clear(&mut self)
        ensures { operands_view self.new ≡ [] }
    {
        self.kinds.clear();
    }

    // Each of these takes operands off the stack, and says whether they were there.

    pub fn take_value(&mut self) -> bool
        ensures { (go : List plain.Kind → Option Way) → value_off (operands_view self.old) go ≡ (if result then go (operands_view self.new) else None) }
    {
        match self.kinds.pop() {
            Some(Kind::Value) => true,
            Some(Kind::Path) | None => false,
        }
    }

    pub fn take_path(&mut self) -> bool
        ensures { (go : List plain.Kind → Option Way) → path_off (operands_view self.old) go ≡ (if result then go (operands_view self.new) else None) }
    {
        match self.kinds.pop() {
            Some(Kind::Path) => true,
            Some(Kind::Value) | None => false,
        }
    }

    pub fn take_values(&mut self, count: u32) -> bool
        ensures { (go : List plain.Kind → Option Way) → values_off count (operands_view self.old) go ≡ (if result then go (operands_view self.new) else None) }
    {
        for _taken in 0..count {
            if !self.take_value() {
                return false;
            }
        }
        true
    }

    // So many operands of any kind.
    pub fn take_any(&mut self, count: u32) -> bool
        ensures { (go : List plain.Kind → Option Way) → taken_off count (operands_view self.old) [] (λ xs js. go js) ≡ (if result then go (operands_view self.new) else None) }
    {
        let count = count as usize;
        if self.kinds.len() < count {
            return false;
        }
        self.kinds.truncate(self.kinds.len() - count);
        true
    }

    // A path, and so many values below it.
    pub fn take_path_and_values(&mut self, count: u32) -> bool
        ensures { (go : List plain.Kind → Option Way) → path_off (operands_view self.old) (λ js. values_off count js go) ≡ (if result then go (operands_view self.new) else None) }
    {
        self.take_path() && self.take_values(count)
    }

    pub fn take(&mut self, takes: Takes) -> bool
        ensures { (go : List plain.Kind → Option Way) → takes_off takes (operands_view self.old) go ≡ (if result then go (operands_view self.new) else None) }
    {
        match takes {
            Takes::Values(values) => self.take_values(values),
            Takes::PathAndValues(values) => self.take_path_and_values(values),
            Takes::CountedAndValues(count, values) => self.take_any(count)
                && self.take_values(values),
            Takes::CountedPathAndValues(count, values) => {
                self.take_any(count) && self.take_path_and_values(values)
            }
            Takes::PathAndCounted(count) => self.take_path() && self.take_any(count),
            Takes::ValueAndPath => self.take_value() && self.take_path(),
        }
    }

    // The last operands, so many, are put in this order.
    pub fn reorder(&mut self, order: &[u32], count: u32) -> Result<bool, NoMemory>
        ensures { IfOk result (λ found. (go : List plain.Kind → Option Way)
            → taken_off count (operands_view self.old) [] (λ xs js. go (kinds_pushed (kinds_reordered order.now xs) js)) ≡ (if found then go (operands_view self.new) else None)) }
    {
        let count = count as usize;
        if self.kinds.len() < count {
            return Ok(false);
        }
        let taken = self.kinds.split_off(self.kinds.len() - count)?;
        self.put_in_order(order, &taken)?;
        Ok(true)
    }

    fn put_in_order(&mut self, order: &[u32], taken: &[Kind]) -> Result<(), NoMemory>
        ensures { OnOk result (operands_view self.new ≡ kinds_pushed (kinds_reordered order.now (map kind_view taken.now)) (operands_view self.old)) }
    {
        for number in order {
            self.put(kind_at(taken, *number))?;
        }
        Ok(())
    }

    // The value below the last operands, so many, comes to stand above them.
    pub fn lift(&mut self, count: u32) -> Result<bool, NoMemory>
        ensures { IfOk result (λ found. (go : List plain.Kind → Option Way)
            → taken_off count (operands_view self.old) [] (λ xs js. value_off js (λ is. go (a_value ∷ kinds_pushed xs is))) ≡ (if found then go (operands_view self.new) else None)) }
    {
        let count = count as usize;
        if self.kinds.len() <= count {
            return Ok(false);
        }
        let place = self.kinds.len() - count - 1;
        match self.kinds.remove(place) {
            Kind::Value => {
                self.kinds.push(Kind::Value)?;
                Ok(true)
            }
            Kind::Path => Ok(false),
        }
    }
}

// The kind of an argument; one that isn't given is a value.
fn kind_at(taken: &[Kind], number: u32) -> Kind
    ensures { kind_view result ≡ slice_index_or (map kind_view taken.now) number a_value }
{
    match taken.get(number as usize) {
        Some(kind) => *kind,
        None => Kind::Value,
    }
}
