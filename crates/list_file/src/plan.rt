//! What a list file asks for.

ghost use Rattle.std.specs.Prelude.{◌≡◌, ◌≤◌, IfOk, length};
ghost use Rattle.list_file.specs.Plans as plans;
ghost use Rattle.list_file.specs.Sources.{IsProper, plan_view};

use crate::list::ListFile;
use crate::read::read_list;
use std::alloc::Global;
use vba_base::{NoMemory, OrMemory, Units};

/// What a list file asks for.
#[derive(Drop)]
pub enum Plan {
    /// Its line with this number breaks it, or 0 where it isn't whole.
    BadLine(u32),
    /// Modules and sheets.
    Project(ListFile),
}

/// What a list with this text asks for.
pub fn plan_of(alloc: Global, text: &Units) -> Result<Plan, NoMemory>
    requires { length text.now ≤ 67108864 }
    ensures plan { IfOk result (λ plan. plan_view plan ≡ plans.plan_of text.now) }
    ensures proper { IfOk result (λ plan. IsProper plan) }
{
    match read_list(alloc, text) {
        Ok(list) => Ok(Plan::Project(list)),
        Err(OrMemory::Fault(line)) => Ok(Plan::BadLine(line)),
        Err(OrMemory::NoMemory) => Err(NoMemory),
    }
}
