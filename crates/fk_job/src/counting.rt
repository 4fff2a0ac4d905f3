// Which members count: those that no later member of their name follows.
ghost use Rattle.std.specs.Prelude.{◌≡◌, not, IfOk};
ghost use Rattle.std.specs.List.{list_any};
ghost use Rattle.fk_job.specs.Members.{is_named};
ghost use Rattle.fk_job.specs.Pieces.{counting_flags};

use fk_json::Member;
use std::alloc::{AllocError, Global};
use std::collections::BTreeSet;

// Looks from the last member to the first, with the names seen in order, so that many members of a
// few names or of many take about as long.
pub(crate) fn counting_flags(alloc: Global, members: &[Member]) -> Result<Vec<bool>, AllocError>
    ensures { IfOk result (λ flags. flags.items ≡ counting_flags members.now) }
{
    let mut names = BTreeSet::new(alloc);
    let mut flags = Vec::new(alloc);
    let mut at = members.len();
    'members: while at > 0 {
        at -= 1;
        let is_new = names.insert(members[at].name.bytes())?;
        flags.push(is_new)?;
    }
    flags.reverse();
    Ok(flags)
}

// Whether a member counts, which has these behind it.
pub(crate) fn counts(member: &Member, later: &[Member]) -> bool
    ensures { result ≡ not (list_any (is_named member.now.name) later.now) }
{
    let name = member.name.bytes();
    for other in later {
        if other.name.bytes() == name {
            return false;
        }
    }
    true
}
