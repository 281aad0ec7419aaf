ghost use Rattle.std.specs.Prelude.{◌≡◌, ◌+◌, ◌<◌, ◌^◌, length, map, IfOk, OnOk};
ghost use Rattle.rg_plan.specs.Nodes.{filtered, same_filter, with_use, number_in};

use crate::node::FilterNode;
use indexmap::IndexSet;
use rg_bytes::Memory;
use std::alloc::Global;
use std::hash::Hash;

/// The number of a member, which goes last where no member is equal.
pub(crate) fn number_of<K: Eq + Hash + Drop>(
    members: &mut IndexSet<K>,
    item: K,
) -> Result<u32, Memory>
    requires { length members.old.keys + 1 < 2 ^ 32 }
    ensures members { OnOk result (members.new.keys ≡ with_use K.eq members.old.keys item) }
    ensures number { IfOk result (λ number. number ≡ number_in K.eq members.new.keys item) }
{
    let (number, _) = members.insert_full(item)?;
    Ok(number as u32)
}

/// The number of a filter node, which goes last where no node is equal.
pub(crate) fn filter_number(
    filters: &mut IndexSet<FilterNode>,
    filter: FilterNode,
) -> Result<u32, Memory>
    requires { length filters.old.keys + 1 < 2 ^ 32 }
    ensures filters { OnOk result
        (map filtered filters.new.keys ≡ with_use same_filter (map filtered filters.old.keys) (filtered filter)) }
    ensures number { IfOk result
        (λ number. number ≡ number_in same_filter (map filtered filters.new.keys) (filtered filter)) }
{
    let number = number_of(filters, filter)?;
    Ok(number)
}

/// The members, in order.
pub(crate) fn in_order<K: Eq + Hash + Drop>(
    alloc: Global,
    members: IndexSet<K>,
) -> Result<Vec<K>, Memory>
    ensures { IfOk result (λ items. items.items ≡ members.keys) }
{
    let mut items = Vec::new(alloc);
    for member in members {
        items.push(member)?;
    }
    Ok(items)
}
