// The lines of modules.
ghost use Rattle.std.specs.Prelude.{◌≡◌, ◌≢◌, ◌⊎◌, ◌<◌, ◌≤◌, ◌^◌, All, length, Err, IsOk, IfOk, IfErr};
ghost use Rattle.p9_abs.specs.Validity.{IsValid};
ghost use Rattle.p9_abs.specs.BuiltIn.{builtin_module, linked};
ghost use Rattle.p9_abs.specs.Programs.{inits_of, bss_of, init_size, routines_of};
ghost use Rattle.p9_names.specs.Linking.{IsTable, ChoosesAll};
ghost use Rattle.p9_place.specs.Places.{spots};
ghost use Rattle.p9_text.specs.declared.weighing.ExpandFault.{ExpandFault};
ghost use Rattle.p9_text.specs.declared.weighing.ExpandFault.TheVariants.{Memory};
ghost use Rattle.p9_text.specs.Weights.{text_weight, text_limit, IsTooLarge};
ghost use Rattle.p9_lines.specs.FormLines.{start_lines};
ghost use Rattle.p9_pieces.specs.Callees.{callee_of, callee_in};
ghost use Rattle.p9_lines.specs.Weights.{words_needed};
ghost use Rattle.p9_slot.specs.Schedule.{HaveTargets, TargetsAreLines};
ghost use Rattle.p9_expand.specs.Laws.{IsMarked};
ghost use Rattle.p9_expand.specs.Base.{argument_list, base_offset};
ghost use Rattle.p9_expand.specs.Program.{lines_of, starts_of, program_lines};

use crate::base::{ARGUMENT_LIST, behind, spot_offset};
use crate::targets::{aimed, with_targets};
use p9_abs::{AModule, Def};
use p9_base::NoMemory;
use p9_names::{Table, builtin};
use p9_pieces::{Callees, program_pieces};
use p9_place::Places;
use p9_r3k::Lines;
use p9_text::{Entries, ExpandFault, Program, Routine, routines, text_words};
use std::alloc::Global;

/// The lines of a program, and the number of the first line of each function's entry and of each
/// instruction, in the order of the text.
#[derive(Drop)]
pub struct ProgramLines {
    pub lines: Lines,
    pub starts: Vec<u32>,
}

// What is added to the address of `_argv` to get the value of R30.
fn base_offset(modules: &Vec<AModule>, places: &Places) -> u32
    requires count { length modules.now.items < 2 ^ 32 }
    requires inits { places.now.inits.items ≡ spots 0 (inits_of (linked modules.now.items)) }
    requires bss { places.now.bss.items ≡ spots places.now.data_size (bss_of (linked modules.now.items)) }
    requires data_size { places.now.data_size ≡ init_size (linked modules.now.items) }
    ensures { result ≡ base_offset modules.now.items }
{
    let def = Def {
        module: modules.len() as u32,
        symbol: ARGUMENT_LIST,
    };
    let init = spot_offset(&places.inits, def);
    let offset = init.or(spot_offset(&places.bss, def));
    behind(offset.unwrap_or(0))
}

// The lines of the functions in the order of the text.
fn lines_of(
    alloc: Global,
    routines: &[Routine],
    callees: &Callees,
    unit: u32,
    offset: u32,
) -> Result<ProgramLines, NoMemory>
    ensures lines { IfOk result (λ e. e.lines ≡ lines_of (callee_of callees.now) routines.now (start_lines unit argument_list offset)) }
    ensures starts { IfOk result (λ e. e.starts.items ≡ starts_of (callee_of callees.now) routines.now) }
{
    let pieces = program_pieces(alloc, routines, callees, unit, ARGUMENT_LIST, offset)?;
    let starts = pieces.starts;
    let lines = aimed(alloc, &starts, &pieces.lines)?;
    let list = with_targets(alloc, &starts, routines, &lines)?;
    Ok(ProgramLines {
        lines: Lines { list },
        starts,
    })
}

// The lines of the modules with the last, where there are not too many words.
fn expanded<'a>(
    alloc: Global,
    modules: &'a Vec<AModule>,
    last: &'a AModule,
    table: &'a Table,
    places: &Places,
) -> Result<ProgramLines, ExpandFault>
    requires count { length modules.now.items < 2 ^ 32 }
    requires small { All (λ m. length m.symbols < 2 ^ 32) modules.now.items }
    requires builtin { last.now ≡ builtin_module }
    requires table { IsTable (linked modules.now.items) table.now.defs.entries }
    requires chosen { ChoosesAll (linked modules.now.items) table.now.defs.entries }
    requires inits { places.now.inits.items ≡ spots 0 (inits_of (linked modules.now.items)) }
    requires bss { places.now.bss.items ≡ spots places.now.data_size (bss_of (linked modules.now.items)) }
    requires data_size { places.now.data_size ≡ init_size (linked modules.now.items) }
    ensures lines { IfOk result (λ e. e.lines ≡ program_lines modules.now.items) }
    ensures starts { IfOk result (λ e. e.starts.items ≡ starts_of (callee_in modules.now.items) (routines_of modules.now.items)) }
    ensures fits { IfOk result (λ _. text_weight (routines_of modules.now.items) ≤ text_limit) }
    ensures refused { IfErr result (IsTooLarge (text_weight (routines_of modules.now.items))) }
{
    let routines = routines(alloc, modules, last)?;
    text_words(&routines)?;
    let callees = Callees {
        program: Program::new(modules, last),
        defs: &table.defs,
        entries: Entries::new(alloc, &routines)?,
    };
    let offset = base_offset(modules, places);
    Ok(lines_of(alloc, &routines, &callees, modules.len() as u32, offset)?)
}

/// The machine lines of the modules and the built-in one: the start, which sets R30, and each function
/// in the order of the text. Want of memory may come at any place. The work is linear in the
/// instructions.
pub fn expand(
    alloc: Global,
    modules: &Vec<AModule>,
    table: &Table,
    places: &Places,
) -> Result<ProgramLines, ExpandFault>
    requires valid { All IsValid modules.now.items }
    requires count { length modules.now.items < 2 ^ 32 }
    requires small { All (λ m. length m.symbols < 2 ^ 32) modules.now.items }
    requires table { IsTable (linked modules.now.items) table.now.defs.entries }
    requires chosen { ChoosesAll (linked modules.now.items) table.now.defs.entries }
    requires inits { places.now.inits.items ≡ spots 0 (inits_of (linked modules.now.items)) }
    requires bss { places.now.bss.items ≡ spots places.now.data_size (bss_of (linked modules.now.items)) }
    requires data_size { places.now.data_size ≡ init_size (linked modules.now.items) }
    ensures lines { IfOk result (λ e. e.lines ≡ program_lines modules.now.items) }
    ensures starts { IfOk result (λ e. e.starts.items ≡ starts_of (callee_in modules.now.items) (routines_of modules.now.items)) }

    // What the schedule asks: each branch and jump has a target, and targets are lines.
    ensures targets { IfOk result (λ e. HaveTargets e.lines) }
    ensures aims { IfOk result (λ e. TargetsAreLines e.lines) }
    ensures marks { IfOk result (λ e. IsMarked modules.now.items e.lines) }

    // With the no-ops that they need, the lines are within the weights.
    ensures words { IfOk result (λ e. words_needed e.lines ≤ text_weight (routines_of modules.now.items)) }
    ensures refused { IfErr result (IsTooLarge (text_weight (routines_of modules.now.items))) }

    // The cause is the answer where it holds, and the lines else, unless memory ran out.
    ensures refused_exactly { (fault : ExpandFault) → fault ≢ Memory → IsTooLarge (text_weight (routines_of modules.now.items)) fault → (result ≡ Err fault) ⊎ (result ≡ Err Memory) }
    ensures expanded_exactly { text_weight (routines_of modules.now.items) ≤ text_limit → IsOk result ⊎ (result ≡ Err Memory) }
{
    let last = builtin(alloc)?;
    expanded(alloc, modules, &last, table, places)
}
