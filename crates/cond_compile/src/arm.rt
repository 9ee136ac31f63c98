//! The arms that enclose a line.

ghost use Rattle.std.specs.Prelude.{◌≡◌, OnOk};
ghost use Rattle.cond_compile.specs.Seen.{AreTold, arms_view};
ghost use Rattle.cond_compile.specs.Selection as selection;

use crate::directive::DirectiveKind;
use vba_base::{NoMemory, Place};

/// An arm of an `#If`: where that `#If` stands, whether an arm before it is true, whether its own condition was evaluated and
/// holds, and whether it is the `#Else`.
#[derive(Clone, Copy, Debug, PartialEq, Eq)]
pub struct Arm {
    pub place: Place,
    pub earlier: bool,
    pub own: bool,
    pub is_else: bool,
}

/// An arm that encloses a line, and whether its `#If` stands on kept ground.
#[derive(Clone, Copy, Debug, PartialEq, Eq)]
pub struct Enclosing {
    pub arm: Arm,
    pub outer: bool,
}

/// Does each of the arms be the first true one of its `#If`?
pub fn is_kept(arms: &Vec<Enclosing>) -> bool
    requires { AreTold arms.now.items }
    ensures { result ≡ selection.is_kept (arms_view arms.now.items) }
{
    match arms.last() {
        Some(enclosing) => enclosing.arm.own && !enclosing.arm.earlier && enclosing.outer,
        None => true,
    }
}

/// The same of the arms round the innermost one.
fn is_outer_kept(arms: &Vec<Enclosing>) -> bool
    requires { AreTold arms.now.items }
    ensures { result ≡ selection.is_kept (selection.outer (arms_view arms.now.items)) }
{
    match arms.last() {
        Some(enclosing) => enclosing.outer,
        None => true,
    }
}

/// Does a directive line stand on kept ground?
pub fn stands_on_kept(kind: DirectiveKind, arms: &Vec<Enclosing>) -> bool
    requires { AreTold arms.now.items }
    ensures { result ≡ selection.is_kept (selection.enclosing kind (arms_view arms.now.items)) }
{
    match kind {
        DirectiveKind::ElseIf | DirectiveKind::Else | DirectiveKind::EndIf => is_outer_kept(arms),
        DirectiveKind::Constant | DirectiveKind::If | DirectiveKind::Unknown => is_kept(arms),
    }
}

/// Is the expression of a directive line evaluated?
pub fn is_due(kind: DirectiveKind, arms: &Vec<Enclosing>) -> bool
    requires { AreTold arms.now.items }
    ensures { result ≡ selection.is_due kind (arms_view arms.now.items) }
{
    match kind {
        DirectiveKind::Constant | DirectiveKind::If => is_kept(arms),
        DirectiveKind::ElseIf => match arms.last() {
            Some(enclosing) => {
                enclosing.outer
                    && !(enclosing.arm.earlier || enclosing.arm.own)
                    && !enclosing.arm.is_else
            }
            None => false,
        },
        DirectiveKind::Else | DirectiveKind::EndIf | DirectiveKind::Unknown => false,
    }
}

/// Is it an arm or an end without its `#If`, or an arm behind the `#Else`?
pub fn is_unmatched(kind: DirectiveKind, arms: &Vec<Enclosing>) -> bool
    ensures { result ≡ selection.is_unmatched kind (arms_view arms.now.items) }
{
    match kind {
        DirectiveKind::ElseIf | DirectiveKind::Else => match arms.last() {
            Some(enclosing) => enclosing.arm.is_else,
            None => true,
        },
        DirectiveKind::EndIf => arms.is_empty(),
        DirectiveKind::Constant | DirectiveKind::If | DirectiveKind::Unknown => false,
    }
}

/// The next arm of an `#If` behind one of its arms; an `#Else` has none.
fn next_arm(arm: Arm, own: bool, is_else: bool) -> Arm
    ensures { result ≡ selection.next_arm arm own is_else }
{
    if arm.is_else {
        return arm;
    }
    Arm {
        place: arm.place,
        earlier: arm.earlier || arm.own,
        own,
        is_else,
    }
}

/// Goes on to the next arm of the innermost `#If`.
fn go_on(arms: &mut Vec<Enclosing>, own: bool, is_else: bool) -> Result<(), NoMemory>
    requires { AreTold arms.old.items }
    ensures arms { OnOk result (arms_view arms.new.items ≡ selection.gone_on own is_else (arms_view arms.old.items)) }
    ensures told { OnOk result (AreTold arms.new.items) }
{
    if let Some(enclosing) = arms.pop() {
        arms.push(Enclosing {
            arm: next_arm(enclosing.arm, own, is_else),
            outer: enclosing.outer,
        })?;
    }
    Ok(())
}

/// Goes behind a directive line at a place, whose condition holds or doesn't.
pub fn pass(
    arms: &mut Vec<Enclosing>,
    kind: DirectiveKind,
    place: Place,
    own: bool,
) -> Result<(), NoMemory>
    requires { AreTold arms.old.items }
    ensures arms { OnOk result (arms_view arms.new.items ≡ selection.arms_behind kind place own (arms_view arms.old.items)) }
    ensures told { OnOk result (AreTold arms.new.items) }
{
    match kind {
        DirectiveKind::If => {
            let outer = is_kept(arms);
            let arm = Arm {
                place,
                earlier: false,
                own,
                is_else: false,
            };
            arms.push(Enclosing { arm, outer })?;
            Ok(())
        }
        DirectiveKind::ElseIf => go_on(arms, own, false),
        DirectiveKind::Else => go_on(arms, true, true),
        DirectiveKind::EndIf => {
            let _inner = arms.pop();
            Ok(())
        }
        DirectiveKind::Constant | DirectiveKind::Unknown => Ok(()),
    }
}
