ghost use Rattle.bound_project.specs.Project.{Project};
ghost use Rattle.bound_project.specs.Whole.{IsWhole};
ghost use Rattle.pcode.specs.Instructions.{Code};
ghost use Rattle.pcode.specs.Layout.{Laid, code_of, entries_of, entry_in};
ghost use Rattle.pcode.specs.Steady.{Steady};
ghost use Rattle.pcode.specs.WellFormed.{WellFormed};

/// The code of each project is laid out as its tables say. It holds of the definitions alone, and changes nothing.
pub fn codes_are_laid_out()
    ensures { (pr : Project) → Laid pr (entry_in (entries_of 1 pr.bodies)) (code_of pr) }
{}

/// The code of each whole project is well-formed: each number in it names what is there, jumps lead to statements of
/// their procedure or to its end, and each instruction finds its operands, on every way the same.
pub fn codes_are_well_formed()
    ensures { (pr : Project) → IsWhole pr → WellFormed (code_of pr) }
{}

/// Each run of a well-formed code with a bound on turns ends, and none lacks an operand or an instruction; so it is
/// also for a code that no project compiles to.
pub fn well_formed_codes_end()
    ensures { (code : Code) → WellFormed code → Steady code }
{}
