//! What an expression is while its nodes are read, and the calls in it: terms, the stack of a pass, the arguments that are
//! pushed for parameters, and the order in which parameters take those with names.
#![tactic(auto)]

mod arguments;
mod bare;
mod calls;
mod constants;
mod functions;
mod given;
mod orders;
mod references;
mod shapes;
mod stack;
mod take;
mod term;

pub use arguments::{
    is_variant, lent_in, nowhere, pass_missing, pass_plain, pass_rest, pass_tree, push_argument,
    sum,
};
pub use bare::{alone, called_ending, push_object, values_of};
pub use calls::{call_ending, call_kind, count_of, push_receiver, routine_ending};
pub use class_defaults::{
    Known, class_led, class_let, class_set, class_written, default_read, takes_none,
};
pub use constants::{constant_number, value_term};
pub use functions::{answer_type, element_type, has_start, takes_count};
pub use given::{is_same_declared, is_user_type, mark_given};
pub use orders::{named_ending, order_number, push_in_order, take_numbers};
pub use references::{
    given_ending, has_object, instance_of, is_found_late, is_host_type, is_item_name, is_of_class,
    is_reference_type, is_typed_kind, may_be_instance, push_given, push_if_any, push_operand,
    push_reference,
};
pub use shapes::{broken_ending, has_names, push_broken, take_shapes, takes, told_type};
pub use stack::{put_item, settle, take_item};
pub use take::{
    late_without_arguments, member_ending, no_object, push_ending, push_node, push_sheet,
    read_kind, value_ending,
};
pub use term::{
    Call, Dotted, Ending, Function, FunctionCall, HostMember, Indexed, Item, Looked, MemberCall,
    Named, Operand, Ordered, Passed, Property, Receiver, Refuser, Routine, Shape, Target, Term,
    Tree, Untaken,
};

// What stands below, for the crates above.
pub use bound_declarations;
pub use bound_forms;
pub use class_defaults;
