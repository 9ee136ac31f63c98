//! Syntax trees of lines: one node for each production of the grammar. A tree keeps each token of its line, with its place.
#![tactic(auto)]

mod block;
mod block_tokens;
mod declaration;
mod declaration_tokens;
mod line;
mod list;
mod procedure;
mod procedure_tokens;
mod simple;
mod simple_tokens;
mod spelling;
mod statement;
mod statement_tokens;
mod word_tokens;

pub use block::{BlockLine, CaseTest, LoopCondition, LoopWord, StepClause};
pub use declaration::{
    Access, AccessWord, Brackets, Constant, Constants, DeclaredType, Dim, Dims, NewTypeClause,
    TypeClause, Variable, VariableWord, Variables,
};
pub use line::{
    AttributeLine, AttributeValue, EnumHeader, LineLabel, LineTree, OptionChoice, OptionLine,
    StatementLine, TypeHeader, TypeMember,
};
pub use list::{Listed, Next};
pub use procedure::{
    DefaultValue, EventLine, Parameter, Parameters, Passing, PassingWord, ProcedureEnd,
    ProcedureHeader, ProcedureKind, ProcedureWords, ResultType,
};
pub use simple::{
    ErrorHandling, EventArguments, ExitKind, LabelName, PrintItem, PrintMark, ReDimArray,
    ResumeTarget, SimpleStatement,
};
pub use spelling::spell;
pub use statement::{NextStatement, Statement, StatementList};
