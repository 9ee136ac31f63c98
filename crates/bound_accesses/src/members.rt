ghost use Rattle.std.specs.Prelude.{◌≡◌, ℕ, Bool, OnOk, IfOk, None, Some, option_map, reverse, true};
ghost use Rattle.vba_expression.specs.declared.node.ExpressionNode.TheVariants as node;
ghost use Rattle.vba_expression.specs.Nodes.{behind_node};
ghost use Rattle.vba_lexer.specs.declared.token.Token.{Token};
ghost use Rattle.vba_values.specs.declared.object.HostRef.TheVariants as host;
ghost use Rattle.bound_project.specs.DraftView.{draft_view};
ghost use Rattle.bound_project.specs.Drafts.{Drafted, NodeNamed};
ghost use Rattle.bound_project.specs.declared.node.NodeKind.TheVariants as node_kind;
ghost use Rattle.bound_project.specs.Expressions.{err_value, no_exprs};
ghost use Rattle.bound_project.specs.View.{element_view, member_view, declared_view};
ghost use Rattle.bound_names.specs.bound_members.specs.bound_calls.specs.bound_forms.specs.Members as members_bound;
ghost use Rattle.binder.specs.Scopes as scopes;
ghost use Rattle.bound_names.specs.bound_members.specs.bound_calls.specs.bound_forms.specs.Terms as plain;
ghost use Rattle.bound_names.specs.bound_members.specs.bound_calls.specs.bound_declarations.specs.constant_values.specs.Rounds.{IsPlace};
ghost use Rattle.bound_names.specs.bound_members.specs.bound_calls.specs.bound_declarations.specs.constant_values.specs.declared_names.specs.View.{qualifier_view, scope_view};
ghost use Rattle.bound_accesses.specs.Qualified.{IsQualifier, MakesMember, dotted_view, looked_up, names_sheets};
ghost use Rattle.bound_accesses.specs.Fields.{MakesBehind, MakesBehindTerm, user_type_in};
ghost use Rattle.bound_accesses.specs.Items.{is_before_dot};
ghost use Rattle.bound_names.specs.bound_members.specs.bound_calls.specs.Standing.{AllNamed, TermNamed};
ghost use Rattle.bound_names.specs.bound_members.specs.bound_calls.specs.Steps.{Goes, MakesLeaf};
ghost use Rattle.bound_names.specs.View.{EnvStands, env_view};
ghost use Rattle.binder.specs.Classes as classes;

use crate::fields::{field_behind, field_of_value, user_type};
use crate::items::{behind_object_place, behind_object_value, found_term};
use bound_names::bound_members::bound_calls::bound_declarations::constant_values::declared_names::{
    Qualifier, Use, as_qualifier, behind, declares, enum_behind,
};
use bound_names::bound_members::bound_calls::bound_declarations::{NotYet, class_in};
use bound_names::bound_members::bound_calls::{
    Dotted, Ending, Item, Term, Tree, alone, is_typed_kind, push_node, put_item, read_kind,
    take_item,
};
use bound_names::bound_members::is_word;
use bound_names::{
    Env, class_member, folded, from_zero, is_either, meant_term, sheets_value, unknown_term,
};
use bound_project::{DeclaredType, Draft, ElementType, ErrMember, NodeKind};
use std::alloc::Global;
use vba_base::{OrMemory, Place, Refusal};
use vba_lexer::Token;
use vba_values::HostRef;
use vba_words::Identifier;

/// What Err tells, as a value.
fn err_value<'a>(member: ErrMember, of: ElementType) -> Term<'a>
    ensures { (env : plain.Env) (d : Drafted) → MakesLeaf env d d result (plain.a_value (err_value (member_view member)) (element_view of)) }
{
    Term::Value(Ending {
        kind: NodeKind::ErrValue(member),
        of: DeclaredType::Plain(of),
    })
}

/// What is told of a member that Err hasn't.
fn no_err_member<'a>(dot: Place) -> Term<'a>
    ensures { (env : plain.Env) (d : Drafted) → MakesLeaf env d d result (plain.broken_value 34 dot no_exprs) }
{
    Term::Value(Ending {
        kind: NodeKind::Marked {
            broken: Refusal {
                rule: 34,
                place: dot,
            },
            values: 0,
        },
        of: DeclaredType::Plain(ElementType::Variant),
    })
}

/// A member of Err.
fn err_member<'a>(dot: Place, name: &Identifier) -> Term<'a>
    ensures { (env : plain.Env) (d : Drafted) → MakesLeaf env d d result (members_bound.err_member dot name.now.name) }
{
    let text = name.name.units();
    if is_word(text, b"number") {
        err_value(ErrMember::Number, ElementType::Long)
    } else if is_word(text, b"source") {
        err_value(ErrMember::Source, ElementType::Text)
    } else if is_word(text, b"description") {
        err_value(ErrMember::Description, ElementType::Text)
    } else if is_word(text, b"raise") {
        Term::ErrRaise
    } else if is_word(text, b"clear") {
        Term::ErrClear
    } else {
        no_err_member(dot)
    }
}

/// What a name before a dot says of where the name behind that is looked up.
fn name_qualifier<'a>(env: Env<'a>, name: &'a Identifier) -> Option<Qualifier<'a>>
    requires { EnvStands env }
    ensures place { IsPlace (scope_view env.entry.constants.scope) (option_map qualifier_view result) }
    ensures is { option_map qualifier_view result ≡ scopes.as_qualifier (scopes.declares scopes.before_dot (scope_view env.entry.constants.scope) name.now) }
{
    as_qualifier(declares(Use::BeforeDot, env.constants.scope, name))
}

/// The same of two names with a dot between them.
fn dotted_qualifier<'a>(env: Env<'a>, dotted: Dotted<'a>) -> Option<Qualifier<'a>>
    requires { EnvStands env }
    ensures place { IsPlace (scope_view env.entry.constants.scope) (option_map qualifier_view result) }
    ensures is { option_map qualifier_view result ≡ looked_up (scope_view env.entry.constants.scope) None (Some (dotted_view dotted.entry)) }
{
    let first = name_qualifier(env, dotted.before);
    enum_behind(env.constants.scope, first, dotted.name)
}

/// The same of an expression; none where it is neither.
fn qualifier_of<'a>(env: Env<'a>, tree: Tree<'a>) -> Option<Qualifier<'a>>
    requires { EnvStands env }
    ensures place { IsPlace (scope_view env.entry.constants.scope) (option_map qualifier_view result) }
    ensures is { IsQualifier (scope_view env.entry.constants.scope) tree.entry (option_map qualifier_view result) }
{
    if let Some(name) = tree.name {
        return name_qualifier(env, name);
    }
    match tree.dotted {
        Some(dotted) => dotted_qualifier(env, dotted),
        None => None,
    }
}

/// A name behind a dot, behind another name where there is one.
fn dotted<'a>(before: Option<&'a Identifier>, name: &'a Identifier) -> Option<Dotted<'a>>
    ensures { option_map dotted_view result ≡ option_map (λ (x : Identifier). (x, name.now)) (option_map (λ x. x.now) before.entry) }
{
    match before {
        Some(before) => Some(Dotted { before, name }),
        None => None,
    }
}

/// A name behind a module, an Enum or VBA.
fn behind_qualifier<'a>(
    alloc: Global,
    draft: &mut Draft,
    env: Env<'a>,
    tree: Tree<'a>,
    qualifier: Qualifier<'a>,
    member: &'a Identifier,
) -> Result<Tree<'a>, OrMemory<NotYet>>
    requires env { EnvStands env }
    requires there { IsPlace (scope_view env.constants.scope) (Some (qualifier_view qualifier)) }
    ensures { IfOk result (λ made. (dot : Token) → IsQualifier (scope_view env.entry.constants.scope) tree.entry (Some (qualifier_view qualifier.entry))
        → MakesMember (env_view env.entry) tree.entry dot member.now (draft_view draft.old) (draft_view draft.new) made) }
{
    let scope = env.constants.scope;
    let meant = behind(Use::Plainly, scope, qualifier, member);
    let found = meant_term(alloc, draft, env, member, meant)?;
    let term = from_zero(found);
    Ok(Tree {
        place: tree.place,
        name: None,
        dotted: dotted(tree.name, member),
        term,
        declared: tree.declared,
    })
}

/// A name behind a place that has an object of a class; that is pushed.
fn behind_class_place<'a>(
    draft: &mut Draft,
    env: Env<'a>,
    place: Place,
    dot: Place,
    at: Ending,
    makes: bool,
    class: u32,
    member: &Identifier,
) -> Result<Term<'a>, OrMemory<NotYet>>
    requires env { EnvStands env }
    requires named { NodeNamed (draft_view draft.old).tables at.kind }
    requires class { classes.class_in (declared_view at.of) ≡ Some class }
    ensures { IfOk result (λ term. (bounds : ℕ) (lends : Bool) → MakesBehind (env_view env.entry) place dot (Term.Place at.kind at.of bounds lends makes) member.now (draft_view draft.old) (draft_view draft.new) term) }
{
    push_node(draft, at.kind, at.of, place)?;
    push_node(draft, read_kind(makes), at.of, place)?;
    class_member(draft, env, place, dot, class, member)
}

/// A name behind a place that has no object of a class, by its last node and its type; it is pushed.
fn behind_plain_place<'a>(
    alloc: Global,
    draft: &mut Draft,
    env: Env<'a>,
    place: Place,
    dot: Place,
    at: Ending,
    lends: bool,
    makes: bool,
    member: &Identifier,
) -> Result<Term<'a>, OrMemory<NotYet>>
    requires env { EnvStands env }
    requires named { NodeNamed (draft_view draft.old).tables at.kind }
    requires class { classes.class_in (declared_view at.of) ≡ None }
    ensures { IfOk result (λ term. (bounds : ℕ) → MakesBehind (env_view env.entry) place dot (Term.Place at.kind at.of bounds lends makes) member.now (draft_view draft.old) (draft_view draft.new) term) }
{
    match user_type(at.of) {
        None => {
            let name = folded(alloc, member)?;
            let found = behind_object_place(draft, env, place, at, makes, name)?;
            Ok(found_term(found, dot))
        }
        Some(_) => field_behind(draft, env, place, dot, at, lends, makes, member),
    }
}

/// A name behind a place, by its last node and its type; it is pushed.
fn behind_place<'a>(
    alloc: Global,
    draft: &mut Draft,
    env: Env<'a>,
    place: Place,
    dot: Place,
    at: Ending,
    lends: bool,
    makes: bool,
    member: &Identifier,
) -> Result<Term<'a>, OrMemory<NotYet>>
    requires env { EnvStands env }
    requires named { NodeNamed (draft_view draft.old).tables at.kind }
    ensures { IfOk result (λ term. (bounds : ℕ) → MakesBehind (env_view env.entry) place dot (Term.Place at.kind at.of bounds lends makes) member.now (draft_view draft.old) (draft_view draft.new) term) }
{
    match class_in(at.of) {
        Some(class) => behind_class_place(draft, env, place, dot, at, makes, class, member),
        None => behind_plain_place(alloc, draft, env, place, dot, at, lends, makes, member),
    }
}

/// Is a name behind the workbook that of its sheets?
fn names_sheets(member: &Identifier) -> bool
    ensures { result ≡ names_sheets member.now }
{
    is_either(member.name.units(), b"worksheets", b"sheets")
}

/// A name behind the workbook: its sheets are those of the host, and it has no other members. It is pushed for these.
fn behind_workbook<'a>(
    draft: &mut Draft,
    place: Place,
    dot: Place,
    ending: Ending,
    member: &Identifier,
) -> Result<Term<'a>, OrMemory<NotYet>>
    requires named { NodeNamed (draft_view draft.old).tables ending.kind }
    requires book { ending.kind ≡ node_kind.HostObject host.Workbook }
    requires other { user_type_in ending.of ≡ None }
    requires class { classes.class_in (declared_view ending.of) ≡ None }
    ensures { IfOk result (λ term. (env : plain.Env) → MakesBehind env place dot (Term.Value ending) member.now (draft_view draft.old) (draft_view draft.new) term) }
{
    if names_sheets(member) {
        return Ok(sheets_value());
    }
    push_node(draft, ending.kind, ending.of, place)?;
    Ok(unknown_term(dot))
}

/// A name behind a value that gives an object; that is pushed.
fn behind_object<'a>(
    alloc: Global,
    draft: &mut Draft,
    env: Env<'a>,
    place: Place,
    dot: Place,
    ending: Ending,
    member: &Identifier,
) -> Result<Term<'a>, OrMemory<NotYet>>
    requires named { NodeNamed (draft_view draft.old).tables ending.kind }
    requires other { user_type_in ending.of ≡ None }
    requires class { classes.class_in (declared_view ending.of) ≡ None }
    requires before { is_before_dot ending.kind ≡ true }
    ensures { IfOk result (λ term. MakesBehind (env_view env.entry) place dot (Term.Value ending) member.now (draft_view draft.old) (draft_view draft.new) term) }
{
    if let NodeKind::HostObject(reference) = ending.kind
        && let HostRef::Workbook = reference
    {
        return behind_workbook(draft, place, dot, ending, member);
    }
    let name = folded(alloc, member)?;
    let found = behind_object_value(draft, env, place, ending, name)?;
    Ok(found_term(found, dot))
}

/// Is a node the last one of a value behind which a dot may stand? Behind what New and TypeOf give it belongs to the
/// class.
fn is_before_dot(kind: NodeKind) -> bool
    ensures { result ≡ is_before_dot kind }
{
    match kind {
        NodeKind::HostObject(_) => true,
        NodeKind::NewObject { .. } => false,
        NodeKind::IsType(_) => false,
        _ => is_typed_kind(kind),
    }
}

/// A name behind a value that gives an object of a class; that is pushed.
fn behind_class_value<'a>(
    draft: &mut Draft,
    env: Env<'a>,
    place: Place,
    dot: Place,
    ending: Ending,
    class: u32,
    member: &Identifier,
) -> Result<Term<'a>, OrMemory<NotYet>>
    requires env { EnvStands env }
    requires named { NodeNamed (draft_view draft.old).tables ending.kind }
    requires class { classes.class_in (declared_view ending.of) ≡ Some class }
    requires before { is_before_dot ending.kind ≡ true }
    ensures { IfOk result (λ term. MakesBehind (env_view env.entry) place dot (Term.Value ending) member.now (draft_view draft.old) (draft_view draft.new) term) }
{
    push_node(draft, ending.kind, ending.of, place)?;
    class_member(draft, env, place, dot, class, member)
}

/// A name behind a value that gives no object of a class; it is pushed.
fn behind_plain_value<'a>(
    alloc: Global,
    draft: &mut Draft,
    env: Env<'a>,
    place: Place,
    dot: Place,
    ending: Ending,
    member: &Identifier,
) -> Result<Term<'a>, OrMemory<NotYet>>
    requires env { EnvStands env }
    requires named { NodeNamed (draft_view draft.old).tables ending.kind }
    requires class { classes.class_in (declared_view ending.of) ≡ None }
    requires before { is_before_dot ending.kind ≡ true }
    ensures { IfOk result (λ term. MakesBehind (env_view env.entry) place dot (Term.Value ending) member.now (draft_view draft.old) (draft_view draft.new) term) }
{
    match user_type(ending.of) {
        None => behind_object(alloc, draft, env, place, dot, ending, member),
        Some(_) => field_of_value(draft, env, place, dot, ending, member),
    }
}

/// A name behind a value; it is pushed.
fn behind_value<'a>(
    alloc: Global,
    draft: &mut Draft,
    env: Env<'a>,
    place: Place,
    dot: Place,
    ending: Ending,
    member: &Identifier,
) -> Result<Term<'a>, OrMemory<NotYet>>
    requires env { EnvStands env }
    requires named { NodeNamed (draft_view draft.old).tables ending.kind }
    ensures { IfOk result (λ term. MakesBehind (env_view env.entry) place dot (Term.Value ending) member.now (draft_view draft.old) (draft_view draft.new) term) }
{
    if !is_before_dot(ending.kind) {
        return Err(OrMemory::Fault(NotYet));
    }
    match class_in(ending.of) {
        Some(class) => behind_class_value(draft, env, place, dot, ending, class, member),
        None => behind_plain_value(alloc, draft, env, place, dot, ending, member),
    }
}

/// A name behind a place or a value.
fn behind_alone<'a>(
    alloc: Global,
    draft: &mut Draft,
    env: Env<'a>,
    place: Place,
    dot: Place,
    term: Term<'a>,
    member: &Identifier,
) -> Result<Term<'a>, OrMemory<NotYet>>
    requires env { EnvStands env }
    requires named { TermNamed (draft_view draft.old).tables term }
    ensures { IfOk result (λ made. MakesBehind (env_view env.entry) place dot term.entry member.now (draft_view draft.old) (draft_view draft.new) made) }
{
    match term {
        Term::Place {
            kind,
            of,
            lends,
            makes,
            ..
        } => {
            let at = Ending { kind, of };
            behind_place(alloc, draft, env, place, dot, at, lends, makes, member)
        }
        Term::Value(ending) => behind_value(alloc, draft, env, place, dot, ending, member),
        _ => Err(OrMemory::Fault(NotYet)),
    }
}

/// A name behind a term: a procedure, a member and a function stand there without arguments.
fn behind_term<'a>(
    alloc: Global,
    draft: &mut Draft,
    env: Env<'a>,
    place: Place,
    dot: Place,
    term: Term<'a>,
    member: &Identifier,
) -> Result<Term<'a>, OrMemory<NotYet>>
    requires env { EnvStands env }
    requires named { TermNamed (draft_view draft.old).tables term }
    ensures { IfOk result (λ made. MakesBehindTerm (env_view env.entry) place dot term.entry member.now (draft_view draft.old) (draft_view draft.new) made) }
{
    match term {
        Term::Err => Ok(err_member(dot, member)),
        _ => {
            let stands = alone(alloc, draft, term, place)?;
            behind_alone(alloc, draft, env, place, dot, stands, member)
        }
    }
}

/// A name behind an expression that says nothing of where it is looked up.
fn behind_tree<'a>(
    alloc: Global,
    draft: &mut Draft,
    env: Env<'a>,
    tree: Tree<'a>,
    dot: Token,
    member: &Identifier,
) -> Result<Tree<'a>, OrMemory<NotYet>>
    requires env { EnvStands env }
    requires named { TermNamed (draft_view draft.old).tables tree.term }
    ensures { IfOk result (λ made. IsQualifier (scope_view env.entry.constants.scope) tree.entry None
        → MakesMember (env_view env.entry) tree.entry dot member.now (draft_view draft.old) (draft_view draft.new) made) }
{
    let term = behind_term(alloc, draft, env, tree.place, dot.place, tree.term, member)?;
    Ok(Tree {
        place: tree.place,
        name: None,
        dotted: None,
        term,
        declared: tree.declared,
    })
}

/// A dot and a name behind an expression.
fn member_tree<'a>(
    alloc: Global,
    draft: &mut Draft,
    env: Env<'a>,
    tree: Tree<'a>,
    dot: Token,
    member: &'a Identifier,
) -> Result<Tree<'a>, OrMemory<NotYet>>
    requires env { EnvStands env }
    requires named { TermNamed (draft_view draft.old).tables tree.term }
    ensures { IfOk result (λ made. MakesMember (env_view env.entry) tree.entry dot member.now (draft_view draft.old) (draft_view draft.new) made) }
{
    match qualifier_of(env, tree) {
        Some(qualifier) => behind_qualifier(alloc, draft, env, tree, qualifier, member),
        None => behind_tree(alloc, draft, env, tree, dot, member),
    }
}

/// A dot and a name behind an expression.
pub fn step_member<'a>(
    alloc: Global,
    draft: &mut Draft,
    env: Env<'a>,
    stack: &mut Vec<Item<'a>>,
    dot: Token,
    member: &'a Identifier,
) -> Result<(), OrMemory<NotYet>>
    requires env { EnvStands env }
    requires named { AllNamed (draft_view draft.old).tables (reverse stack.old.items) }
    ensures { OnOk result (Goes (env_view env.entry) (draft_view draft.old) (reverse stack.old.items) (draft_view draft.new) (reverse stack.new.items) (behind_node (node.Member dot member.now))) }
{
    let Some(Item::Tree(tree)) = take_item(stack) else {
        return Err(OrMemory::NoMemory);
    };
    let made = member_tree(alloc, draft, env, tree, dot, member)?;
    put_item(stack, Item::Tree(made))?;
    Ok(())
}
