// A list of modules is compiled, and a unit of it is chosen.
ghost use Rattle.std.specs.Prelude.{◌≡◌, Some, None, IfOk, IfErr, OnOk, option_map};
ghost use Rattle.sp_choose.specs.Choices.{chosen};
ghost use Rattle.sp_law_lists.specs.fit_list.Passes.{ListPasses};
ghost use Rattle.sp_load.specs.Loads.{refusal_of};
ghost use Rattle.sp_driver.specs.Lists.{unbuilt_in, IsUnready};
ghost use Rattle.sp_driver.specs.inside.Ready.{IsNotChosen, IsRefusalOrNoMemory, IsHindered, PassesWhereBuilt, RunsWhatIsChosen, IsReady};

use crate::exits::Unready;
use crate::texts::ListTexts;
use sp_base::{Diag, NoMemory};
use sp_choose::chosen;
use sp_code::Program;
use sp_law_programs::compiled_lists_run;
use sp_load::{Loaded, Source, refusal_of};
use sp_lower::lower;
use sp_typed_units::{Typed, Unit};
use sp_unbuilt::unbuilt;
use std::alloc::Global;

/// The program of a list, and the number of the unit in it that runs.
#[derive(Drop)]
pub struct Compiled {
    pub program: Program,
    pub unit: u32,
}

/// The number of the unit that runs. Lists of more units than numbers don't fit into memory.
fn unit_of(name: Option<&str>, units: &[Unit]) -> Result<u32, Unready>
    ensures ok { IfOk result (λ u. chosen (option_map (λ x. x.now) name.entry) units.now ≡ Some u) }
    ensures err { IfErr result (IsNotChosen (option_map (λ x. x.now) name.entry) units.now) }
{
    let Some(unit) = chosen(name, units) else {
        return Err(Unready::NoParser);
    };
    u32::try_from(unit).map_err(|_| Unready::NoMemory)
}

/// Why a list is refused, or want of memory for its refusal.
fn refused(alloc: Global, sources: &[Source], diag: Diag) -> Unready
    ensures { IsRefusalOrNoMemory (refusal_of sources.now diag) result }
{
    match refusal_of(alloc, sources, diag) {
        Ok(refusal) => Unready::Unbuilt(refusal),
        Err(_) => Unready::NoMemory,
    }
}

/// Whether all of a list can be run, or why not.
#[tactic(auto, using(crate::proofs::Readying::hindered_there))]
fn can_run(alloc: Global, list: &Loaded) -> Result<(), Unready>
    requires { PassesWhereBuilt list.now.modules.items list.now.typed }
    ensures built { OnOk result (unbuilt_in list.now.sources.items list.now.modules.items
        list.now.typed ≡ None) }
    ensures passes { OnOk result (ListPasses list.now.typed) }
    ensures err { IfErr result (IsHindered list.now.sources.items list.now.modules.items
        list.now.typed) }
{
    let texts = ListTexts {
        sources: list.sources.as_slice(),
    };
    match unbuilt(&texts, &list.modules, &list.typed) {
        Some(diag) => Err(refused(alloc, &list.sources, diag)),
        None => Ok(()),
    }
}

/// The program of a list that passes.
#[tactic(auto, using(crate::proofs::Readying::literals_fit))]
fn program_of(alloc: Global, list: &Typed) -> Result<Program, NoMemory>
    requires { ListPasses list.now }
    ensures { IfOk result (RunsWhatIsChosen list.now) }
{
    compiled_lists_run();
    lower(alloc, list)
}

/// Compiles a list, and chooses the unit that runs: that of a name, or the only one.
pub fn compile(alloc: Global, name: Option<&str>, list: &Loaded) -> Result<Compiled, Unready>
    requires { PassesWhereBuilt list.now.modules.items list.now.typed }
    ensures ok { IfOk result (IsReady (option_map (λ x. x.now) name.entry) list.now.sources.items
        list.now.modules.items list.now.typed) }
    ensures err { IfErr result (IsUnready (option_map (λ x. x.now) name.entry) list.now.sources.items
        list.now.modules.items list.now.typed) }
{
    let unit = unit_of(name, list.typed.units.as_slice())?;
    can_run(alloc, list)?;
    let program = program_of(alloc, &list.typed)?;
    Ok(Compiled { program, unit })
}
