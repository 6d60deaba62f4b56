// Each call once, with ample memory.
ghost use Rattle.std.specs.Prelude.{◌≡◌, [], Some};
ghost use Rattle.sp_chain.specs.Chains.{list_of};

use sp_base::{NoMemory, or_drop};
use sp_chain::{Chains, ListId};
use std::alloc::Global;

/// What the calls answer of a list without items: of the second of two its item, whether they are the first slot and the one
/// behind it, and what is taken out. A third item comes and is changed.
fn answers(
    chains: &mut Chains<u64>,
    list: ListId,
) -> Result<(u64, bool, bool, u64, Option<u64>), u64>
    requires { list_of chains.old list ≡ Some [] }
{
    let one = chains.push_back(list, 1)?;
    let two = chains.insert_after(list, one, 2)?;
    let second = *chains.get(list, two);
    let one_is_first = chains.first(list) == Some(one);
    let two_is_next = chains.next(list, one) == Some(two);
    let taken = chains.unlink(list, one);
    let last = chains.pop_back(list);
    let three = chains.push_back(list, 3)?;
    *chains.get_mut(list, three) = 4;
    Ok((second, one_is_first, two_is_next, taken, last))
}

fn told(alloc: Global) -> Result<Result<(u64, bool, bool, u64, Option<u64>), u64>, NoMemory> {
    let mut chains: Chains<u64> = Chains::new(alloc);
    let list = or_drop!(chains.new_list(); chains);
    let told = answers(&mut chains, list);
    drop(chains);
    Ok(told)
}

#[test]
fn items_come_in_order(rt: HostRuntime) -> Result<(), NoMemory> {
    let told = told(rt.alloc())?;
    assert!(rt; told == Ok((2, true, true, 1, Some(2))));
    Ok(())
}
