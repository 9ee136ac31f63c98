// Whether the tables of a code say where its procedures and statements begin.
ghost use Rattle.std.specs.Prelude.{◌≡◌, ◌↔◌, ◌<◌, ◌≤◌, ℕ, IsTrue, Some, drop, length, option_map, slice_get, slice_index};
ghost use Rattle.bound_project.specs.Project.{Named};
ghost use Rattle.bound_project.specs.View.{class_member_view, class_view, declarations_view};
ghost use Rattle.bound_project.specs.Whole.{All, IfThere, WholeClass, WholeMember};
ghost use Rattle.pcode.specs.Instructions.{Begin, Leave, entry_of, next_statement};
ghost use Rattle.pcode.specs.View.{code_view};
ghost use Rattle.pcode.specs.WellFormed.{BeginsAt, first_address, statement_count};
ghost use Rattle.code_check.specs.Questions.{AreFrom, StartsAgree, TableBegins, TableGoesOn, TablesBegin, TablesGoOn};

use crate::handlers::{are_whole_handlers, has_sources};
use bound_project::{Class, Member};
use pcode::{Code, Instr};

/// The addresses of a procedure: from one on, before another.
#[derive(Clone, Copy)]
pub struct Addresses {
    pub first: usize,
    pub end: usize,
}

pub fn statement_count(code: &Code, procedure: usize) -> usize
    ensures { result ≡ statement_count (code_view code.now) procedure }
{
    match code.entries.get(procedure) {
        Some(entries) => entries.len(),
        None => 0,
    }
}

/// The address of a statement; past the last one it is 0.
pub fn entry_of(code: &Code, procedure: usize, statement: usize) -> usize
    ensures { result ≡ entry_of (code_view code.now) procedure statement }
{
    let Some(entries) = code.entries.get(procedure) else {
        return 0;
    };
    match entries.get(statement) {
        Some(entry) => *entry as usize,
        None => 0,
    }
}

fn next_statement(code: &Code, procedure: usize, statement: usize) -> usize
    ensures { result ≡ next_statement (code_view code.now) procedure statement }
{
    let Some(nexts) = code.nexts.get(procedure) else {
        return statement;
    };
    match nexts.get(statement) {
        Some(next) => *next as usize,
        None => statement,
    }
}

pub fn procedure_count(code: &Code) -> usize
    ensures { result ≡ length (code_view code.now).entries }
{
    code.entries.len()
}

fn instr_count(code: &Code) -> usize
    ensures { result ≡ length (code_view code.now).instrs }
{
    code.instrs.len()
}

// Where the first procedure from one on that has statements begins, or the end of the code.
fn first_address(code: &Code, from: usize) -> usize
    ensures { result ≡ first_address (drop from (code_view code.now).entries) (length (code_view code.now).instrs) }
{
    let count = procedure_count(code);
    for procedure in from..count {
        if statement_count(code, procedure) > 0 {
            return entry_of(code, procedure, 0);
        }
    }
    instr_count(code)
}

/// The addresses of a procedure; none where it has no statements.
pub fn addresses_of(code: &Code, procedure: usize) -> Addresses
    ensures { AreFrom (code_view code.now) procedure result.first result.end }
{
    if procedure >= procedure_count(code) {
        return Addresses { first: 0, end: 0 };
    }
    if statement_count(code, procedure) == 0 {
        return Addresses { first: 0, end: 0 };
    }
    let first = entry_of(code, procedure, 0);
    let end = first_address(code, procedure + 1);
    Addresses { first, end }
}

// Whether a statement of this number begins at an address.
fn is_begun_at(code: &Code, statement: usize, address: usize) -> bool
    ensures { IsTrue result ↔ (slice_get (code_view code.now).instrs address ≡ Some (Begin statement)) }
{
    let Some(instr) = code.instr_at(address) else {
        return false;
    };
    let Instr::Begin { statement: own } = instr else {
        return false;
    };
    own as usize == statement
}

// Whether a statement begins where the table says, among the addresses of its procedure.
fn begins_at(code: &Code, procedure: usize, addresses: Addresses, statement: usize) -> bool
    requires { AreFrom (code_view code.now) procedure addresses.first addresses.end }
    ensures { IsTrue result ↔ BeginsAt (code_view code.now) procedure statement (entry_of (code_view code.now) procedure statement) }
{
    let address = entry_of(code, procedure, statement);
    if address < addresses.first {
        return false;
    }
    if addresses.end <= address {
        return false;
    }
    is_begun_at(code, statement, address)
}

fn table_begins(code: &Code, procedure: usize) -> bool
    ensures { IsTrue result ↔ TableBegins (code_view code.now) procedure }
{
    let addresses = addresses_of(code, procedure);
    let count = statement_count(code, procedure);
    for statement in 0..count {
        if !begins_at(code, procedure, addresses, statement) {
            return false;
        }
    }
    true
}

/// Whether each statement begins where the tables say.
pub fn tables_begin(code: &Code) -> bool
    ensures { IsTrue result ↔ TablesBegin (code_view code.now) }
{
    let count = procedure_count(code);
    for procedure in 0..count {
        if !table_begins(code, procedure) {
            return false;
        }
    }
    true
}

// Whether Leave stands at address 0.
fn begins_with_leave(code: &Code) -> bool
    ensures { IsTrue result ↔ (slice_get (code_view code.now).instrs 0 ≡ Some Leave) }
{
    let Some(instr) = code.instr_at(0) else {
        return false;
    };
    let Instr::Leave = instr else {
        return false;
    };
    true
}

/// Whether behind Leave the first procedure that has statements begins.
pub fn is_led_by_leave(code: &Code) -> bool
    ensures { IsTrue result ↔ ((slice_get (code_view code.now).instrs 0 ≡ Some Leave) × (first_address (code_view code.now).entries (length (code_view code.now).instrs) ≡ 1)) }
{
    begins_with_leave(code) && first_address(code, 0) == 1
}

/// Whether each procedure has its start and its table.
pub fn are_counted(code: &Code) -> bool
    ensures { IsTrue result ↔ ((length (code_view code.now).starts ≡ length (code_view code.now).declared.procedures) × (length (code_view code.now).entries ≡ length (code_view code.now).declared.procedures)) }
{
    let procedures = code.declared.procedures.len();
    code.starts.len() == procedures && code.entries.len() == procedures
}

fn start_of(code: &Code, procedure: usize) -> usize
    ensures { result ≡ slice_index (code_view code.now).starts procedure }
{
    match code.starts.get(procedure) {
        Some(start) => *start as usize,
        None => 0,
    }
}

/// Whether the address of each procedure is that of its first statement.
pub fn starts_agree(code: &Code) -> bool
    requires { length (code_view code.now).starts ≡ length (code_view code.now).entries }
    ensures { IsTrue result ↔ StartsAgree (code_view code.now) }
{
    let count = procedure_count(code);
    for procedure in 0..count {
        if start_of(code, procedure) != entry_of(code, procedure, 0) {
            return false;
        }
    }
    true
}

fn table_goes_on(code: &Code, procedure: usize) -> bool
    ensures { IsTrue result ↔ TableGoesOn (code_view code.now) procedure }
{
    let count = statement_count(code, procedure);
    for statement in 0..count {
        if count < next_statement(code, procedure, statement) {
            return false;
        }
    }
    true
}

/// Whether behind each statement comes one of its procedure, or the end.
pub fn tables_go_on(code: &Code) -> bool
    ensures { IsTrue result ↔ TablesGoOn (code_view code.now) }
{
    let count = procedure_count(code);
    for procedure in 0..count {
        if !table_goes_on(code, procedure) {
            return false;
        }
    }
    true
}

// Whether a procedure is there, where one is named.
fn has_procedure_if_any(code: &Code, procedure: Option<u32>) -> bool
    ensures { IsTrue result ↔ IfThere (λ (p : ℕ). p < length (declarations_view code.now.declared).procedures) procedure }
{
    match procedure {
        Some(procedure) => (procedure as usize) < code.declared.procedures.len(),
        None => true,
    }
}

// Whether a class is there of which an object is made, where one is named.
fn has_class_if_any(code: &Code, class: Option<u32>) -> bool
    ensures { IsTrue result ↔ IfThere (λ (c : ℕ). c ≤ length (declarations_view code.now.declared).classes) class }
{
    match class {
        Some(class) => class as usize <= code.declared.classes.len(),
        None => true,
    }
}

// Whether what a member is of a class with so many variables is there.
fn is_whole_member(code: &Code, fields: usize, member: Member) -> bool
    ensures { IsTrue result ↔ WholeMember (declarations_view code.now.declared) fields (class_member_view member) }
{
    match member {
        Member::Variable { field, makes } => {
            (field as usize) < fields && has_class_if_any(code, makes)
        }
        Member::Procedure(procedure) => has_procedure_if_any(code, Some(procedure)),
        Member::Property { reads, lets, sets } => {
            has_procedure_if_any(code, reads)
                && (has_procedure_if_any(code, lets) && has_procedure_if_any(code, sets))
        }
    }
}

fn field_count(class: &Class) -> usize
    ensures { result ≡ length (class_view class.now).fields }
{
    class.fields.len()
}

fn are_whole_members(code: &Code, class: &Class) -> bool
    ensures { IsTrue result ↔ All (λ (x : Named). WholeMember (declarations_view code.now.declared) (length (class_view class.now).fields) x.member) (class_view class.now).members }
{
    let fields = field_count(class);
    for named in &class.members {
        if !is_whole_member(code, fields, named.member) {
            return false;
        }
    }
    true
}

// A default member, or an enumerator, where there is one.
fn is_whole_if_any(code: &Code, class: &Class, member: Option<Member>) -> bool
    ensures { IsTrue result ↔ IfThere (WholeMember (declarations_view code.now.declared) (length (class_view class.now).fields)) (option_map class_member_view member) }
{
    match member {
        Some(member) => is_whole_member(code, field_count(class), member),
        None => true,
    }
}

fn class_ends(code: &Code, class: &Class) -> bool
    ensures { IsTrue result ↔ WholeClass (declarations_view code.now.declared) (class_view class.now) }
{
    has_procedure_if_any(code, class.initialize)
        && (has_procedure_if_any(code, class.terminate)
            && (are_whole_members(code, class)
                && (is_whole_if_any(code, class, class.default)
                    && (is_whole_if_any(code, class, class.enumerator)
                        && (has_sources(class) && are_whole_handlers(code, class))))))
}

/// Whether the procedures, members and handlers of classes are there.
pub fn classes_end(code: &Code) -> bool
    ensures { IsTrue result ↔ All (WholeClass (declarations_view code.now.declared)) (declarations_view code.now.declared).classes }
{
    for class in &code.declared.classes {
        if !class_ends(code, class) {
            return false;
        }
    }
    true
}
