// The rows of a set by moment whose moment has come.
ghost use Rattle.std.specs.Prelude.{◌≡◌, IfOk};
ghost use Rattle.fk_model.specs.Orders.{timed};
ghost use Rattle.fk_model.specs.Due.{up_to};

use fk_core::Tables;
use fk_json::Pairs;
use fk_model::Target;
use std::alloc::{AllocError, Global};

/// The moments and tickets of the rows of a set whose moment has come, in order.
pub(crate) fn come(
    alloc: Global,
    tables: &Tables,
    target: Target,
    moment: u64,
) -> Result<Pairs, AllocError>
    ensures { IfOk result (λ pairs. pairs.items
        ≡ up_to moment (timed target tables.now.kept.rows)) }
{
    let mut pairs = Pairs::new(alloc);
    tables.listed(target, moment, &mut pairs)?;
    Ok(pairs)
}
