//! What stands before brackets, and what the numbers in them make of it: elements of places and of values.

ghost use Rattle.std.specs.Prelude.{◌≡◌, ◌<◌, false, Bool, IfOk, MatchBool, length};
ghost use Rattle.bound_project.specs.DraftView.{draft_view};
ghost use Rattle.bound_project.specs.Drafts.{NodeNamed};
ghost use Rattle.bound_accesses.specs.bound_names.specs.bound_members.specs.bound_calls.specs.bound_forms.specs.Terms as plain;
ghost use Rattle.bound_accesses.specs.bound_names.specs.bound_members.specs.bound_calls.specs.Indexing.{Opens, OpensTerm};
ghost use Rattle.bound_accesses.specs.bound_names.specs.bound_members.specs.bound_calls.specs.Standing.{TermNamed};
ghost use Rattle.bound_operands.specs.Indexing.{OpensBehind, place_term};
ghost use Rattle.bound_terms.specs.Indexing.{IndexesValue, NotIndexed, OpensItem, member_refuser, procedure_refuser, untaken_at, value_refuser};
ghost use Rattle.bound_accesses.specs.bound_names.specs.View.{EnvStands, env_view};

use bound_accesses::bound_names::bound_members::bound_calls::bound_declarations::{
    NotYet, class_in, is_property,
};
use bound_accesses::bound_names::bound_members::bound_calls::{
    Ending, HostMember, Item, Refuser, Routine, Shape, Term, Tree, Untaken, push_node, push_object,
    push_receiver, read_kind, routine_ending, values_of,
};
use bound_accesses::bound_names::bound_members::open_member;
use bound_accesses::bound_names::{Env, callee_term};
use bound_accesses::{item_member, item_term, lacks_item, takes_item};
use bound_operands::{
    WholePlace, count_shapes, open_call, open_function, open_led_place, open_led_value, open_place,
    open_value, push_whole, refused_rule,
};
use bound_project::{DeclaredType, Draft, LateUse};
use std::alloc::Global;
use vba_base::{NoMemory, OrMemory};

/// Do brackets behind a procedure index its value? It is a property then, whose Get has no parameters.
pub fn indexes_value<'a>(routine: Routine<'a>) -> bool
    ensures { MatchBool result (IndexesValue routine.entry) (NotIndexed routine.entry) }
{
    match routine.parameters {
        [] => is_property(routine.written.header.words),
        _ => false,
    }
}

/// Do these arguments break a rule behind what takes others? No promise rests on it: where they end it is tested what has
/// come.
fn is_refused<'a>(
    alloc: Global,
    draft: &Draft,
    refuser: Refuser<'a>,
    shapes: &[Shape<'a>],
) -> Result<bool, NoMemory> {
    let rule = refused_rule(alloc, draft, refuser, shapes)?;
    Ok(rule.is_some())
}

/// What doesn't take its arguments, which are read from now on.
fn untaken<'a>(tree: Tree<'a>, refuser: Refuser<'a>) -> Item<'a>
    ensures { result ≡ untaken_at tree.entry.place refuser.entry }
{
    Item::Untaken(Untaken {
        place: tree.place,
        refuser,
    })
}

/// A procedure as what doesn't take its arguments.
fn procedure_refuser<'a>(routine: Routine<'a>) -> Refuser<'a>
    ensures { result ≡ procedure_refuser routine.entry }
{
    Refuser::Procedure {
        values: values_of(routine.receiver),
        parameters: routine.parameters,
        of: routine.of,
    }
}

/// A value as what doesn't take its arguments: one that a property gave, or another one.
fn value_refuser<'a>(of: DeclaredType, of_property: bool) -> Refuser<'a>
    ensures { result ≡ value_refuser of of_property }
{
    if of_property {
        Refuser::Called(of)
    } else {
        Refuser::Value { of, bounds: 0 }
    }
}

/// A member as what doesn't take its arguments: of an object that a property gave, or of another one.
fn member_refuser<'a>(member: HostMember, of_property: bool) -> Refuser<'a>
    ensures { result ≡ member_refuser member of_property }
{
    if of_property {
        Refuser::Behind(member)
    } else {
        Refuser::Member(member)
    }
}

/// A member whose arguments, these, are read from now on; its object was pushed, which a property gave or another term.
fn open_item<'a>(
    alloc: Global,
    draft: &mut Draft,
    env: Env<'a>,
    tree: Tree<'a>,
    member: HostMember,
    of_property: bool,
    shapes: &[Shape<'a>],
) -> Result<Item<'a>, OrMemory<NotYet>>
    requires { member.name < length (draft_view draft.old).tables.constants }
    ensures { IfOk result (λ item. OpensItem of_property (env_view env.entry) tree.entry member (draft_view draft.old) (draft_view draft.new) item) }
{
    let refuser = member_refuser(member, of_property);
    if is_refused(alloc, draft, refuser, shapes)? {
        return Ok(untaken(tree, refuser));
    }
    let call = open_member(
        alloc,
        draft,
        tree.place,
        member,
        shapes,
        LateUse::Reading,
        env.has_class,
        of_property,
    )?;
    Ok(Item::Member(call))
}

/// What an object is that has no default member with arguments, where these are read from now on, behind a property that gave
/// it or another term: what is told of that is indexed.
fn open_lacking<'a>(
    alloc: Global,
    draft: &mut Draft,
    env: Env<'a>,
    tree: Tree<'a>,
    term: Term<'a>,
) -> Result<Item<'a>, OrMemory<NotYet>>
    requires { TermNamed (draft_view draft.old).tables term }
    ensures { IfOk result (λ item. (of_property : Bool) → OpensBehind of_property (env_view env.entry) tree.entry term.entry (draft_view draft.old) (draft_view draft.new) item) }
{
    let item = item_term(alloc, draft, env, tree.place, term)?;
    let Term::Value(ending) = item else {
        return Err(OrMemory::Fault(NotYet));
    };
    let indexed = push_whole(draft, ending, tree.place, env.has_class)?;
    Ok(Item::Indexed(indexed))
}

/// A value that these arguments index, behind a property that gave it or another term: all but its last node is pushed.
fn open_whole<'a>(
    alloc: Global,
    draft: &mut Draft,
    env: Env<'a>,
    tree: Tree<'a>,
    ending: Ending,
    of_property: bool,
    shapes: &[Shape<'a>],
) -> Result<Item<'a>, OrMemory<NotYet>>
    requires env { EnvStands env }
    requires named { NodeNamed (draft_view draft.old).tables ending.kind }
    ensures { IfOk result (λ item. OpensBehind of_property (env_view env.entry) tree.entry (Term.Value ending) (draft_view draft.old) (draft_view draft.new) item) }
{
    if let Some(class) = class_in(ending.of) {
        let count = count_shapes(shapes)?;
        return open_led_value(draft, env.declared, tree, ending, class, count);
    }
    let refuser = value_refuser(ending.of, of_property);
    if is_refused(alloc, draft, refuser, shapes)? {
        push_node(draft, ending.kind, ending.of, tree.place)?;
        return Ok(untaken(tree, refuser));
    }
    let indexed = open_value(draft, tree, ending, env.has_class)?;
    Ok(Item::Indexed(indexed))
}

/// A value whose arguments, these, are read from now on, behind a property that gave it or another term: they index it, or are
/// those of an object's default member.
fn open_given<'a>(
    alloc: Global,
    draft: &mut Draft,
    env: Env<'a>,
    tree: Tree<'a>,
    ending: Ending,
    of_property: bool,
    shapes: &[Shape<'a>],
) -> Result<Item<'a>, OrMemory<NotYet>>
    requires env { EnvStands env }
    requires named { NodeNamed (draft_view draft.old).tables ending.kind }
    ensures { IfOk result (λ item. OpensBehind of_property (env_view env.entry) tree.entry (Term.Value ending) (draft_view draft.old) (draft_view draft.new) item) }
{
    let term = Term::Value(ending);
    if takes_item(env.has_class, draft, term) {
        let member = item_member(alloc, draft, env, tree.place, term)?;
        return open_item(alloc, draft, env, tree, member, of_property, shapes);
    }
    if lacks_item(term) {
        return open_lacking(alloc, draft, env, tree, term);
    }
    open_whole(alloc, draft, env, tree, ending, of_property, shapes)
}

/// A property that is called without arguments, and whose value takes these in brackets, which are read from now on.
fn open_property<'a>(
    alloc: Global,
    draft: &mut Draft,
    env: Env<'a>,
    tree: Tree<'a>,
    routine: Routine<'a>,
    shapes: &[Shape<'a>],
) -> Result<Item<'a>, OrMemory<NotYet>>
    requires env { EnvStands env }
    requires indexes { IndexesValue routine }
    ensures { IfOk result (λ item. OpensTerm (env_view env.entry) tree.entry (Term.Routine routine.entry) (draft_view draft.old) (draft_view draft.new) item) }
{
    let ending = routine_ending(alloc, draft, routine)?;
    open_given(alloc, draft, env, tree, ending, true, shapes)
}

/// A procedure that doesn't take the arguments that are read from now on; its object is pushed.
fn refuse_procedure<'a>(
    draft: &mut Draft,
    tree: Tree<'a>,
    routine: Routine<'a>,
) -> Result<Item<'a>, OrMemory<NotYet>>
    requires { NotIndexed routine }
    ensures { IfOk result (λ item. (env : plain.Env) → OpensTerm env tree.entry (Term.Routine routine.entry) (draft_view draft.old) (draft_view draft.new) item) }
{
    push_object(draft, routine.receiver)?;
    Ok(untaken(tree, procedure_refuser(routine)))
}

/// A call whose arguments are read from now on; its object is pushed.
fn open_received<'a>(
    draft: &mut Draft,
    tree: Tree<'a>,
    routine: Routine<'a>,
) -> Result<Item<'a>, OrMemory<NotYet>>
    ensures { IfOk result (λ item. (env : plain.Env) → OpensTerm env tree.entry (Term.Routine routine.entry) (draft_view draft.old) (draft_view draft.new) item) }
{
    push_receiver(draft, routine.receiver)?;
    Ok(Item::Call(open_call(tree, routine)))
}

/// A procedure whose arguments, these, are read from now on.
fn open_procedure<'a>(
    alloc: Global,
    draft: &mut Draft,
    tree: Tree<'a>,
    routine: Routine<'a>,
    shapes: &[Shape<'a>],
) -> Result<Item<'a>, OrMemory<NotYet>>
    requires { NotIndexed routine }
    ensures { IfOk result (λ item. (env : plain.Env) → OpensTerm env tree.entry (Term.Routine routine.entry) (draft_view draft.old) (draft_view draft.new) item) }
{
    if is_refused(alloc, draft, procedure_refuser(routine), shapes)? {
        return refuse_procedure(draft, tree, routine);
    }
    open_received(draft, tree, routine)
}

/// A procedure whose arguments, these, are read from now on, or a property whose value they index.
fn open_routine<'a>(
    alloc: Global,
    draft: &mut Draft,
    env: Env<'a>,
    tree: Tree<'a>,
    routine: Routine<'a>,
    shapes: &[Shape<'a>],
) -> Result<Item<'a>, OrMemory<NotYet>>
    requires { EnvStands env }
    ensures { IfOk result (λ item. OpensTerm (env_view env.entry) tree.entry (Term.Routine routine.entry) (draft_view draft.old) (draft_view draft.new) item) }
{
    if !indexes_value(routine) {
        return open_procedure(alloc, draft, tree, routine, shapes);
    }
    if shapes.is_empty() {
        return open_received(draft, tree, routine);
    }
    open_property(alloc, draft, env, tree, routine, shapes)
}

/// A place that these arguments index: all but its last node is pushed.
fn open_indexed<'a>(
    alloc: Global,
    draft: &mut Draft,
    env: Env<'a>,
    tree: Tree<'a>,
    at: WholePlace,
    shapes: &[Shape<'a>],
) -> Result<Item<'a>, OrMemory<NotYet>>
    requires env { EnvStands env }
    requires named { NodeNamed (draft_view draft.old).tables at.kind }
    ensures { IfOk result (λ item. OpensTerm (env_view env.entry) tree.entry (place_term at) (draft_view draft.old) (draft_view draft.new) item) }
{
    if let Some(class) = class_in(at.of) {
        let count = count_shapes(shapes)?;
        let whole = Ending {
            kind: at.kind,
            of: at.of,
        };
        return open_led_place(
            draft,
            env.declared,
            tree,
            whole,
            at.lends,
            at.makes,
            class,
            count,
        );
    }
    let refuser = Refuser::Value {
        of: at.of,
        bounds: at.bounds,
    };
    if is_refused(alloc, draft, refuser, shapes)? {
        push_node(draft, at.kind, at.of, tree.place)?;
        push_node(draft, read_kind(at.makes), at.of, tree.place)?;
        return Ok(untaken(tree, refuser));
    }
    let indexed = open_place(draft, tree, at, env.has_class)?;
    Ok(Item::Indexed(indexed))
}

/// What takes no arguments, of which these are read from now on.
fn open_none<'a>(tree: Tree<'a>, shapes: &[Shape<'a>]) -> Result<Item<'a>, OrMemory<NotYet>>
    ensures { IfOk result (λ item. item ≡ untaken_at tree.entry.place Refuser.Bare) }
{
    if shapes.is_empty() {
        return Err(OrMemory::Fault(NotYet));
    }
    Ok(untaken(tree, Refuser::Bare))
}

/// What a term is whose arguments, these, are read from now on, where an object's default member doesn't take them.
fn open_term<'a>(
    alloc: Global,
    draft: &mut Draft,
    env: Env<'a>,
    tree: Tree<'a>,
    term: Term<'a>,
    shapes: &[Shape<'a>],
) -> Result<Item<'a>, OrMemory<NotYet>>
    requires env { EnvStands env }
    requires named { TermNamed (draft_view draft.old).tables term }
    ensures { IfOk result (λ item. OpensTerm (env_view env.entry) tree.entry term.entry (draft_view draft.old) (draft_view draft.new) item) }
{
    match term {
        Term::Place {
            kind,
            of,
            bounds,
            lends,
            makes,
        } => {
            let at = WholePlace {
                kind,
                of,
                bounds,
                lends,
                makes,
            };
            open_indexed(alloc, draft, env, tree, at, shapes)
        }
        Term::Routine(routine) => open_routine(alloc, draft, env, tree, routine, shapes),
        Term::Function(function) => Ok(Item::Function(open_function(tree, function))),
        Term::Err => open_none(tree, shapes),
        Term::ErrClear => open_none(tree, shapes),
        _ => Err(OrMemory::Fault(NotYet)),
    }
}

/// The same where it may.
fn open_other<'a>(
    alloc: Global,
    draft: &mut Draft,
    env: Env<'a>,
    tree: Tree<'a>,
    term: Term<'a>,
    shapes: &[Shape<'a>],
) -> Result<Item<'a>, OrMemory<NotYet>>
    requires env { EnvStands env }
    requires named { TermNamed (draft_view draft.old).tables term }
    ensures { IfOk result (λ item. OpensBehind false (env_view env.entry) tree.entry term.entry (draft_view draft.old) (draft_view draft.new) item) }
{
    if takes_item(env.has_class, draft, term) {
        let member = item_member(alloc, draft, env, tree.place, term)?;
        return open_item(alloc, draft, env, tree, member, false, shapes);
    }
    if lacks_item(term) {
        return open_lacking(alloc, draft, env, tree, term);
    }
    open_term(alloc, draft, env, tree, term, shapes)
}

/// What an expression is whose arguments, these, are read from now on.
pub fn begin_arguments<'a>(
    alloc: Global,
    draft: &mut Draft,
    env: Env<'a>,
    tree: Tree<'a>,
    shapes: &[Shape<'a>],
) -> Result<Item<'a>, OrMemory<NotYet>>
    requires env { EnvStands env }
    requires named { TermNamed (draft_view draft.old).tables tree.term }
    ensures { IfOk result (λ item. Opens (env_view env.entry) tree.entry (draft_view draft.old) (draft_view draft.new) item) }
{
    let term = callee_term(alloc, draft, env, tree)?;
    if let Term::Value(ending) = term {
        return open_given(alloc, draft, env, tree, ending, false, shapes);
    }
    open_other(alloc, draft, env, tree, term, shapes)
}
