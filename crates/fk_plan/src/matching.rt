// Which rows a MUTATE takes.
ghost use Rattle.std.specs.Prelude.{◌≡◌, IfOk};
ghost use Rattle.std.specs.Option.{option_copied};
ghost use Rattle.fk_job.specs.RowText.{HasMoments};
ghost use Rattle.fk_model.specs.Filters.{row_matches};
ghost use Rattle.fk_plan.specs.Choosing.{row_told};
ghost use Rattle.fk_plan.specs.Taking.{takes};

use crate::enqueuing::copied;
use crate::mutating::Mutation;
use fk_filter::matches;
use fk_job::{Stamp, write_job};
use fk_model::{Cmd, Filter, Move, Row};
use std::alloc::{AllocError, Global};

/// Whether a row is taken, as its move leaves it. A clear looks at no filter.
pub(crate) fn takes(
    alloc: Global,
    mutation: &Mutation,
    row: &Row,
    step: Option<&Move>,
) -> Result<bool, AllocError>
    requires { HasMoments (row_told (option_copied step) row.now).stamp }
    ensures { IfOk result (λ answer. answer ≡ takes mutation.now.cmd mutation.now.filter
        (row_told (option_copied step.entry) row.now)) }
{
    match mutation.cmd {
        Cmd::Clear => Ok(true),
        _ => row_matches(alloc, &mutation.filter, row, step),
    }
}

/// Whether a row meets a filter. Its text is written only where there is a pattern for it.
fn row_matches(
    alloc: Global,
    filter: &Filter,
    row: &Row,
    step: Option<&Move>,
) -> Result<bool, AllocError>
    requires { HasMoments (row_told (option_copied step) row.now).stamp }
    ensures { IfOk result (λ answer. answer
        ≡ row_matches filter.now (row_told (option_copied step.entry) row.now)) }
{
    if filter.glob.is_none() {
        return Ok(matches(filter, &row.job.jid, &row.job.jobtype, b""));
    }
    let stamp = stamp_told(row, step)?;
    let text = write_job(alloc, &row.job, &stamp)?;
    Ok(matches(filter, &row.job.jid, &row.job.jobtype, text.bytes()))
}

/// The stamp of a row, as its move leaves it.
pub(crate) fn stamp_told(row: &Row, step: Option<&Move>) -> Result<Stamp, AllocError>
    ensures { IfOk result (λ stamp. stamp ≡ (row_told (option_copied step.entry) row.now).stamp) }
{
    match step {
        Some(
            Move::Put {
                enqueued,
                failure,
                ..
            },
        ) => Ok(Stamp {
            created: row.stamp.created,
            enqueued: *enqueued,
            failure: copied(failure)?,
        }),
        _ => row.stamp.copied(),
    }
}
