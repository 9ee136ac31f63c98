//! What the modules of a project declare, and what names mean there: entries of modules, names of procedures, the
//! scopes in which names are looked up, and the types that names of types mean.
#![tactic(auto)]

mod access;
mod at_top;
mod body;
mod classes;
mod entries;
mod entry;
mod header;
mod inside;
mod local;
mod lookup;
mod member;
mod naming;
mod numbers;
mod outside;
mod profile;
mod pushing;
mod qualifiers;
mod range;
mod scope;
mod slices;
mod sources;
mod space;
mod types;
mod words;

pub use access::is_public_word;
pub use classes::{
    class_space, field_number, has_class, is_of_object, member_entry, own_class, reaches,
};
pub use entries::entries_of;
pub use entry::{Entry, What, Written};
pub use header::header_names;
pub use local::{Local, Own};
pub use lookup::{
    Wanted, counts, declares, entry_of, first_entry, has_dollar, is_same_space, is_seen, is_type,
};
pub use naming::spelled;
pub use numbers::{
    Counted, class_number, count_before, count_of, entries_before, first_entries, type_number,
};
pub use outside::{is_constant_name, is_host_name, is_left_out_name, is_library_name};
pub use qualifiers::{as_qualifier, behind, enum_behind};
pub use range::PartRange;
pub use scope::{Meant, Qualifier, Scope, TypeMeant, Use};
pub use sources::spaces_of;
pub use space::{Source, Space};
pub use types::{
    is_asked, is_made, is_object, meant_type, named_type, plain_type, suffix_type, type_behind,
    type_meant,
};
pub use words::is_word;

// What stands below, for the crates above.
pub use binder;
pub use module_parts;
