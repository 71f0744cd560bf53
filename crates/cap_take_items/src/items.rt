//! Items, one after the other.
ghost use Rattle.std.specs.Prelude.{◌≡◌, IfOk};
ghost use Rattle.cap_prog.specs.Program.{none};
ghost use Rattle.cap_goal.specs.Views.{items_in};
ghost use Rattle.cap_take_items.specs.Views.{items_ahead};

use cap_goal::Items;
use cap_prog::Item;
use std::alloc::{AllocError, Global};

/// The item that comes first, if there is one, and those behind it.
pub fn next_item<'a>(
    alloc: Global,
    items: &Items<'a>,
) -> Result<Option<(&'a Item, Items<'a>)>, AllocError>
    ensures { IfOk result (λ next. items_in items.now.lists.items none ≡ items_ahead next) }
{
    let mut lists = Vec::from_slice(alloc, &items.lists)?;
    while let Some(list) = lists.pop() {
        if let [item, rest @ ..] = list {
            lists.push(rest)?;
            return Ok(Some((item, Items { lists })));
        }
    }
    Ok(None)
}
