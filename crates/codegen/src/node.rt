ghost use Rattle.std.specs.Prelude.{◌≡◌, [], ◌∷◌, ◌++◌, IfOk, OnOk};
ghost use Rattle.codegen.specs.Emission.{call_instrs, constant_number, lists_of, node_instrs, nodes_instrs, operator_instrs, order_length, part_instrs, place_instrs, value_instrs};

use bound_project::{DeclaredType, Node, NodeKind, TooLong};
use pcode::Instr;
use vba_base::OrMemory;
use vba_lib::LibraryFunction;
use vba_values::Compare;

/// The numbers of the two constants that the compiler adds behind those of the project: nothing, and what stands for
/// an argument that isn't given.
#[derive(Clone, Copy)]
pub struct Added {
    pub empty: u32,
    pub missing: u32,
}

/// What the nodes of a statement have to know of it: for the tests of a Case its Select Case, the type of that value,
/// how texts compare and the address of its block; for the arrays of a ReDim whether their values are preserved.
#[derive(Clone, Copy)]
pub struct Around {
    pub header: u32,
    pub of: DeclaredType,
    pub compare: Compare,
    pub to: u32,
    pub preserve: bool,
}

pub fn put(code: &mut Vec<Instr>, instr: Instr) -> Result<(), OrMemory<TooLong>>
    ensures { OnOk result (code.new.items ≡ code.old.items ++ instr ∷ []) }
{
    code.push(instr)?;
    Ok(())
}

pub fn constant_number(added: Added, constant: u32) -> u32
    ensures { result ≡ constant_number added constant }
{
    if constant < added.empty {
        constant
    } else {
        added.empty
    }
}

pub fn order_length(orders: &[Vec<u32>], order: u32) -> Result<u32, OrMemory<TooLong>>
    ensures { IfOk result (λ n. n ≡ order_length (lists_of orders.now) order) }
{
    let Some(order) = orders.get(order as usize) else {
        return Ok(0);
    };
    match u32::try_from(order.len()) {
        Ok(length) => Ok(length),
        Err(_) => Err(OrMemory::Fault(TooLong)),
    }
}

pub fn put_two(code: &mut Vec<Instr>, first: Instr, second: Instr) -> Result<(), OrMemory<TooLong>>
    ensures { OnOk result (code.new.items ≡ code.old.items ++ first ∷ second ∷ []) }
{
    put(code, first)?;
    put(code, second)
}

// A node is one of several sorts; for one of another sort each of these puts nothing.

// A value that stands alone: a constant, an object of the host, or what Err tells.
fn put_value(code: &mut Vec<Instr>, added: Added, kind: NodeKind) -> Result<(), OrMemory<TooLong>>
    ensures { OnOk result (code.new.items ≡ code.old.items ++ value_instrs added kind) }
{
    let instr = match kind {
        NodeKind::NotGiven => Instr::Push {
            constant: added.missing,
        },
        NodeKind::Zone => Instr::Push {
            constant: added.empty,
        },
        NodeKind::Constant { constant } | NodeKind::ByDefault { constant } => Instr::Push {
            constant: constant_number(added, constant),
        },
        NodeKind::HostObject(reference) => Instr::PushHost(reference),
        NodeKind::ActiveSheet => Instr::FirstSheet,
        NodeKind::This => Instr::PushThis,
        NodeKind::NewObject { class } => {
            return put_two(code, Instr::New { class }, Instr::Drop);
        }
        NodeKind::ErrValue(member) => Instr::LoadErr(member),
        _ => return Ok(()),
    };
    put(code, instr)
}

// A place, or what is read of a place or of the parts of a value.
fn put_place(code: &mut Vec<Instr>, kind: NodeKind) -> Result<(), OrMemory<TooLong>>
    ensures { OnOk result (code.new.items ≡ code.old.items ++ place_instrs kind) }
{
    let instr = match kind {
        NodeKind::Variable(variable) => Instr::PathOf(variable),
        NodeKind::Item { variable, numbers } => {
            return put_two(code, Instr::PathOf(variable), Instr::ElementOf { numbers });
        }
        NodeKind::Element { numbers } => Instr::ElementIn { numbers },
        NodeKind::Field {
            field,
            of,
            is_bounded,
        } => Instr::FieldOf {
            field,
            of,
            is_bounded,
        },
        NodeKind::KeptPlace { header } => Instr::Dot { block: header },
        NodeKind::ObjectField {
            field,
            of,
            is_bounded,
        } => Instr::FieldIn {
            field,
            of,
            is_bounded,
        },
        NodeKind::NewVariable { variable, class } => {
            return put_two(code, Instr::PathOf(variable), Instr::AsNew { class });
        }
        NodeKind::AsNew { class } => Instr::AsNew { class },
        NodeKind::ElementAlong { arguments } => Instr::ElementAlong { arguments },
        NodeKind::LateField { name } => Instr::LateField { name },
        NodeKind::PlaceOf => Instr::PlaceOf,
        NodeKind::Load => Instr::ReadThrough,
        NodeKind::LoadMade => {
            put_two(code, Instr::MakeThere, Instr::Drop)?;
            return put_two(code, Instr::StoreMade, Instr::ReadThrough);
        }
        NodeKind::ElementValue { numbers } => Instr::Index { numbers },
        NodeKind::FieldValue { field } => Instr::PartOf { field },
        NodeKind::BoundOf {
            is_upper,
            dimension,
        } => Instr::BoundAt {
            is_upper,
            dimension,
        },
        _ => return Ok(()),
    };
    put(code, instr)
}

// An operator, a function of the library, or what an object gives way to.
fn put_operator(code: &mut Vec<Instr>, kind: NodeKind) -> Result<(), OrMemory<TooLong>>
    ensures { OnOk result (code.new.items ≡ code.old.items ++ operator_instrs kind) }
{
    let instr = match kind {
        NodeKind::Unary { operator, of } => Instr::OperateAlone { operator, of },
        NodeKind::Binary {
            operator,
            compare,
            left,
            right,
        } => Instr::Operate {
            operator,
            compare,
            left,
            right,
        },
        NodeKind::Marked { values, .. } => Instr::Library {
            function: LibraryFunction::Array,
            is_text_form: false,
            compare: Compare::Binary,
            is_base_one: false,
            arguments: values,
        },
        NodeKind::Library {
            function,
            is_text_form,
            values,
            compare,
            is_base_one,
        } => Instr::Library {
            function,
            is_text_form,
            compare,
            is_base_one,
            arguments: values,
        },
        NodeKind::DefaultOf => Instr::Plain,
        NodeKind::DefaultIfAny => Instr::PlainIfAny,
        NodeKind::Enumerated => Instr::Enumerate,
        NodeKind::ItemAlong { arguments } => Instr::ItemAlong { arguments },
        NodeKind::Same => Instr::Same,
        NodeKind::IsType(of) => Instr::IsType(of),
        _ => return Ok(()),
    };
    put(code, instr)
}

fn put_call_in_order(
    code: &mut Vec<Instr>,
    orders: &[Vec<u32>],
    procedure: u32,
    arguments: u32,
    order: u32,
) -> Result<(), OrMemory<TooLong>>
    ensures { OnOk result (code.new.items ≡ code.old.items
        ++ Instr.Reorder order arguments ∷ Instr.Call procedure (order_length (lists_of orders.now) order) ∷ []) }
{
    let all = order_length(orders, order)?;
    let call = Instr::Call {
        procedure,
        arguments: all,
    };
    put_two(code, Instr::Reorder { order, arguments }, call)
}

fn put_method_in_order(
    code: &mut Vec<Instr>,
    orders: &[Vec<u32>],
    procedure: u32,
    arguments: u32,
    order: u32,
) -> Result<(), OrMemory<TooLong>>
    ensures { OnOk result (code.new.items ≡ code.old.items
        ++ Instr.Reorder order arguments ∷ Instr.CallOf procedure (order_length (lists_of orders.now) order) ∷ []) }
{
    let all = order_length(orders, order)?;
    let call = Instr::CallOf {
        procedure,
        arguments: all,
    };
    put_two(code, Instr::Reorder { order, arguments }, call)
}

// A call, a member of an object, or an argument.
fn put_call(
    code: &mut Vec<Instr>,
    added: Added,
    orders: &[Vec<u32>],
    kind: NodeKind,
) -> Result<(), OrMemory<TooLong>>
    ensures { OnOk result (code.new.items ≡ code.old.items ++ call_instrs added (lists_of orders.now) kind) }
{
    let instr = match kind {
        NodeKind::Call {
            procedure,
            arguments,
        } => Instr::Call {
            procedure,
            arguments,
        },
        NodeKind::CallInOrder {
            procedure,
            arguments,
            order,
        } => return put_call_in_order(code, orders, procedure, arguments, order),
        NodeKind::ObjectThere => Instr::ObjectThere,
        NodeKind::Method {
            procedure,
            arguments,
        } => Instr::CallOf {
            procedure,
            arguments,
        },
        NodeKind::MethodInOrder {
            procedure,
            arguments,
            order,
        } => return put_method_in_order(code, orders, procedure, arguments, order),
        NodeKind::MemberThere { name, given } => Instr::MemberThere {
            name: constant_number(added, name),
            given,
        },
        NodeKind::HostMember { name, arguments } => Instr::MemberOf {
            name: constant_number(added, name),
            arguments,
        },
        NodeKind::NamedThere { name, names, given } => Instr::NamedThere {
            name: constant_number(added, name),
            names,
            given,
        },
        NodeKind::NamedMember {
            name,
            names,
            arguments,
        } => Instr::NamedOf {
            name: constant_number(added, name),
            names,
            arguments,
        },
        NodeKind::LateThere { aim, member } => Instr::FindLate { aim, member },
        NodeKind::LateValue {
            aim,
            member,
            argument,
        } => Instr::BindValue {
            aim,
            member,
            argument,
        },
        NodeKind::LatePlace {
            aim,
            member,
            argument,
        } => Instr::BindPlace {
            aim,
            member,
            argument,
        },
        NodeKind::LateMember(member) => Instr::CallLate(member),
        NodeKind::ByPlace => Instr::Lend,
        NodeKind::ByCopy(of) => Instr::Fit(of),
        NodeKind::ByList { values } => Instr::Pack { arguments: values },
        _ => return Ok(()),
    };
    put(code, instr)
}

// An item of Debug.Print, a test of a Case, an array of a ReDim or of an Erase.
fn put_part(code: &mut Vec<Instr>, around: Around, kind: NodeKind) -> Result<(), OrMemory<TooLong>>
    ensures { OnOk result (code.new.items ≡ code.old.items ++ part_instrs around kind) }
{
    let instr = match kind {
        NodeKind::Shown => Instr::ShowText,
        NodeKind::TestBegins => {
            let block = around.header;
            return put_two(code, Instr::Selected { block }, Instr::Plain);
        }
        NodeKind::TestIs { operator, of } => Instr::IfFits {
            operator,
            compare: around.compare,
            of: around.of,
            test: of,
            to: around.to,
        },
        NodeKind::TestRange { low, high, .. } => Instr::IfBetween {
            compare: around.compare,
            of: around.of,
            low,
            high,
            to: around.to,
        },
        NodeKind::Resize { bounds, of } => Instr::Redim {
            preserve: around.preserve,
            of,
            bounds,
        },
        NodeKind::Erased => Instr::EraseAt,
        _ => return Ok(()),
    };
    put(code, instr)
}

fn emit_node(
    code: &mut Vec<Instr>,
    added: Added,
    orders: &[Vec<u32>],
    around: Around,
    kind: NodeKind,
) -> Result<(), OrMemory<TooLong>>
    ensures { OnOk result (code.new.items ≡ code.old.items ++ node_instrs added (lists_of orders.now) around kind) }
{
    put_value(code, added, kind)?;
    put_place(code, kind)?;
    put_operator(code, kind)?;
    put_call(code, added, orders, kind)?;
    put_part(code, around, kind)
}

/// The instructions of nodes, in order.
pub fn emit_nodes(
    code: &mut Vec<Instr>,
    added: Added,
    orders: &[Vec<u32>],
    around: Around,
    nodes: &[Node],
) -> Result<(), OrMemory<TooLong>>
    ensures { OnOk result (code.new.items ≡ code.old.items ++ nodes_instrs added (lists_of orders.now) around nodes.now) }
{
    for node in nodes {
        emit_node(code, added, orders, around, node.kind)?;
    }
    Ok(())
}
