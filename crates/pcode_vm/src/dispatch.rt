// What each instruction does.
ghost use Rattle.std.specs.Prelude.{IfOk, ◌<◌, ◌+◌, ◌^◌};
ghost use Rattle.pcode.specs.View.{code_view, instr_view, tables_of};
ghost use Rattle.pcode_vm.specs.Does.{Acted};

use crate::machine::Machine;
use crate::step::{Step, StepEnd};
use pcode::{Code, Instr};
use std::alloc::Global;
use vba_base::NoMemory;

impl Machine {
    // One instruction at an address.
    pub fn act(
        &mut self,
        alloc: Global,
        code: &Code,
        turns: u64,
        pc: usize,
        instr: Instr,
    ) -> Result<Step, NoMemory>
        requires { pc + 1 < 2 ^ 64 }
        ensures { IfOk result (λ step. Acted turns (code_view code.now) (instr_view (tables_of code.now) instr) pc self.old self.new step) }
    {
        match instr {
            Instr::Begin { statement } => self.begin(alloc, code, turns, pc, statement),
            Instr::Push { constant } => self.push(alloc, code, turns, pc, constant),
            Instr::PushHost(reference) => self.push_host(alloc, code, turns, pc, reference),
            Instr::LoadErr(member) => self.load_err(alloc, code, turns, pc, member),
            Instr::PathOf(variable) => self.path_of(alloc, code, turns, pc, variable),
            Instr::ReadThrough => self.read_through(alloc, code, turns, pc),
            Instr::ElementOf { numbers } => self.element_of(alloc, code, turns, pc, numbers),
            Instr::ElementIn { numbers } => self.element_in(alloc, code, turns, pc, numbers),
            Instr::FieldOf {
                field,
                of,
                is_bounded,
            } => self.field_of(alloc, code, turns, pc, field, of, is_bounded),
            Instr::Dot { block } => self.dot(alloc, code, turns, pc, block),
            Instr::Index { numbers } => self.index(alloc, code, turns, pc, numbers),
            Instr::PartOf { field } => self.part_of(alloc, code, turns, pc, field),
            Instr::Operate {
                operator,
                compare,
                left,
                right,
            } => self.operate(alloc, code, turns, pc, operator, compare, left, right),
            Instr::OperateAlone { operator, of } => self.operate_alone(
                alloc, code, turns, pc, operator, of,
            ),
            Instr::Plain => self.plain(alloc, code, turns, pc),
            Instr::PlainIfAny => self.plain_if_any(alloc, code, turns, pc),
            Instr::FirstSheet => self.first_sheet(alloc, code, turns, pc),
            Instr::MemberThere { name, given } => self.member_there(
                alloc, code, turns, pc, name, given,
            ),
            Instr::MemberOf { name, arguments } => self.member_of(
                alloc, code, turns, pc, name, arguments,
            ),
            Instr::NamedThere { name, names, given } => self.named_there(
                alloc, code, turns, pc, name, names, given,
            ),
            Instr::NamedOf {
                name,
                names,
                arguments,
            } => self.named_of(alloc, code, turns, pc, name, names, arguments),
            Instr::Same => self.same(alloc, code, turns, pc),
            Instr::IsType(of) => self.is_type(alloc, code, turns, pc, of),
            Instr::Library {
                function,
                is_text_form,
                compare,
                is_base_one,
                arguments,
            } => self.call_library(
                alloc,
                code,
                turns,
                pc,
                function,
                is_text_form,
                compare,
                is_base_one,
                arguments,
            ),
            Instr::BoundAt {
                is_upper,
                dimension,
            } => self.bound_at(alloc, code, turns, pc, is_upper, dimension),
            Instr::Fit(of) => self.fit(alloc, code, turns, pc, of),
            Instr::FitObject(of) => self.fit_object(alloc, code, turns, pc, of),
            Instr::Drop => self.drop_value(alloc, code, turns, pc),
            Instr::Lend => self.lend(alloc, code, turns, pc),
            Instr::Pack { arguments } => self.pack(alloc, code, turns, pc, arguments),
            Instr::Reorder { order, arguments } => self.reorder(
                alloc, code, turns, pc, order, arguments,
            ),
            Instr::Lift { arguments } => self.lift(alloc, code, turns, pc, arguments),
            Instr::Call {
                procedure,
                arguments,
            } => self.call(alloc, code, turns, pc, procedure, arguments),
            Instr::Store => self.store(alloc, code, turns, pc),
            Instr::SetAt => self.set_at(alloc, code, turns, pc),
            Instr::StoreDefault => self.store_default(alloc, code, turns, pc),
            Instr::StoreMember { name, arguments } => self.store_member(
                alloc, code, turns, pc, name, arguments,
            ),
            Instr::StoreItem { numbers } => self.store_item(alloc, code, turns, pc, numbers),
            Instr::SetMember => self.set_member(alloc, code, turns, pc),
            Instr::RaiseEvent { event, arguments } => self.raise_event(
                alloc, code, turns, pc, event, arguments,
            ),
            Instr::ShowText => self.show_text(alloc, code, turns, pc),
            Instr::Show { ends, items } => self.show(alloc, code, turns, pc, ends, items),
            Instr::Throw { arguments } => self.throw(alloc, code, turns, pc, arguments),
            Instr::LoopOff { block } => self.loop_off(alloc, code, turns, pc, block),
            Instr::LoopOn {
                counter,
                block,
                compare,
                last,
                step,
            } => self.loop_on(alloc, code, turns, pc, counter, block, compare, last, step),
            Instr::NextRound { counter, block } => self.next_round(
                alloc, code, turns, pc, counter, block,
            ),
            Instr::EachOff { block } => self.each_off(alloc, code, turns, pc, block),
            Instr::EachOn { block } => self.each_on(alloc, code, turns, pc, block),
            Instr::NextItem { control, block } => self.next_item(
                alloc, code, turns, pc, control, block,
            ),
            Instr::Keep { block } => self.keep(alloc, code, turns, pc, block),
            Instr::Selected { block } => self.selected(alloc, code, turns, pc, block),
            Instr::IfFits {
                operator,
                compare,
                of,
                test,
                to,
            } => self.if_fits(alloc, code, turns, pc, operator, compare, of, test, to),
            Instr::IfBetween {
                compare,
                of,
                low,
                high,
                to,
            } => self.if_between(alloc, code, turns, pc, compare, of, low, high, to),
            Instr::Redim {
                preserve,
                of,
                bounds,
            } => self.redim(alloc, code, turns, pc, preserve, of, bounds),
            Instr::EraseAt => self.erase_at(alloc, code, turns, pc),
            Instr::KeepPath { block } => self.keep_path(alloc, code, turns, pc, block),
            Instr::DropKept { block } => self.drop_kept(alloc, code, turns, pc, block),
            Instr::PutReturn { statement } => self.put_return(alloc, code, turns, pc, statement),
            Instr::TakeReturn { procedure } => self.take_return(alloc, code, turns, pc, procedure),
            Instr::SetPolicy(policy) => self.set_policy(alloc, code, turns, pc, policy),
            Instr::HandlerOff => self.handler_off(alloc, code, turns, pc),
            Instr::ErrOff => self.err_off(alloc, code, turns, pc),
            Instr::Again { procedure } => self.again(alloc, code, turns, pc, procedure),
            Instr::Behind { procedure } => self.behind(alloc, code, turns, pc, procedure),
            Instr::Resumes {
                procedure,
                statement,
            } => self.resume_at(alloc, code, turns, pc, procedure, statement),
            Instr::Finish { to } => self.finish_at(alloc, code, turns, pc, to),
            Instr::Branch { sense, to, other } => self.branch(
                alloc, code, turns, pc, sense, to, other,
            ),
            Instr::Halt => Ok(Step::Ended(StepEnd::Ended)),
            Instr::StopHere => self.stop_here(alloc, code, turns, pc),
            Instr::Leave => self.leave(alloc, code, turns, pc),
            Instr::PushThis => self.push_this(alloc, code, turns, pc),
            Instr::New { class } => self.new_object(alloc, code, turns, pc, class),
            Instr::ObjectThere => self.object_there(alloc, code, turns, pc),
            Instr::FieldIn {
                field,
                of,
                is_bounded,
            } => self.field_in(alloc, code, turns, pc, field, of, is_bounded),
            Instr::AsNew { class } => self.as_new(alloc, code, turns, pc, class),
            Instr::MakeThere => self.make_there(alloc, code, turns, pc),
            Instr::StoreMade => self.store_made(alloc, code, turns, pc),
            Instr::CallOf {
                procedure,
                arguments,
            } => self.call_of(alloc, code, turns, pc, procedure, arguments),
            Instr::FindLate { aim, member } => self.find_late(alloc, code, turns, pc, aim, member),
            Instr::BindValue {
                aim,
                member,
                argument,
            } => self.bind_value(alloc, code, turns, pc, aim, member, argument),
            Instr::BindPlace {
                aim,
                member,
                argument,
            } => self.bind_place(alloc, code, turns, pc, aim, member, argument),
            Instr::CallLate(member) => self.call_late(alloc, code, turns, pc, member),
            Instr::LetLate(member) => self.let_late(alloc, code, turns, pc, member),
            Instr::SetLate(member) => self.set_late(alloc, code, turns, pc, member),
            Instr::ItemAlong { arguments } => self.item_along(alloc, code, turns, pc, arguments),
            Instr::WriteThrough => self.write_through(alloc, code, turns, pc),
            Instr::LetElement { numbers } => self.let_element(alloc, code, turns, pc, numbers),
            Instr::SetElement { numbers } => self.set_element(alloc, code, turns, pc, numbers),
            Instr::ElementAlong { arguments } => self.element_along(
                alloc, code, turns, pc, arguments,
            ),
            Instr::LateField { name } => self.late_field(alloc, code, turns, pc, name),
            Instr::PlaceOf => self.place_of(alloc, code, turns, pc),
            Instr::Enumerate => self.enumerate(alloc, code, turns, pc),
        }
    }
}
