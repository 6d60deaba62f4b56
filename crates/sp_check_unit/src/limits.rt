// Limits on numbers of things, over all modules.
ghost use Rattle.std.specs.Prelude.{◌≡◌, OnOk};
ghost use Rattle.sp_rules.specs.Least.{checked};
ghost use Rattle.sp_type_answers.specs.Rules.{limits_from};

use sp_ast::Module;
use sp_base::NoMemory;
use sp_name_tables::number;
use sp_rule_units::note_limits;
use sp_rules::Fault;

/// Notes where modules have too many declarations, items or parameters.
pub(crate) fn note_all_limits(list: &[Module], least: &mut Option<Fault>) -> Result<(), NoMemory>
    ensures { OnOk result (least.new ≡ checked least.old (limits_from 0 list.now)) }
{
    for m in 0..list.len() {
        note_limits(number(m)?, &list[m].root(), least);
    }
    Ok(())
}
