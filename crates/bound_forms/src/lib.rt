//! What the expressions, statements and bodies of a project are bound to, the static rules that are marked in them, and
//! the answer of binding. It has no code; the definitions stand in `specs/`, and their worked rows in `proofs/`.
#![tactic(auto)]
