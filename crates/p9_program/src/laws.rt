// What holds of programs of translated modules, as contracts of functions that do nothing.
ghost use Rattle.p9_program.specs.Example.{SmallProgram};
ghost use Rattle.p9_program.specs.Linking.{CodesAreRight};
ghost use Rattle.p9_program.specs.Whole.{FilesAreTranslated, ProgramsBegin, ProgramsAreRight, BudgetIsEnough};

/// Where objects translate modules that join, each function has its code in the program, and it is
/// right, the system calls among them.
pub fn codes_are_right()
    ensures { CodesAreRight }
{}

/// Files whose bytes translate modules spell objects that are translations of them.
pub fn files_are_translated()
    ensures { FilesAreTranslated }
{}

/// Before the first instruction the first objects of C stand in the data.
pub fn programs_begin()
    ensures { ProgramsBegin }
{}

/// The run of a program comes to what C comes to: the same exit text, output and input left, at least
/// as many steps as turns, and at most so many, by which the machine's instructions are limited.
pub fn programs_are_right()
    ensures right { ProgramsAreRight }
    ensures budget { BudgetIsEnough }
{}

/// The small program `void main(void) { }` has an object, made by hand, that translates it.
pub fn small_program()
    ensures { SmallProgram }
{}
