ghost use Rattle.std.specs.Prelude.{◌≡◌, bytes_eq};
ghost use Rattle.std.specs.List.{list_any};
ghost use Rattle.fk_model.specs.Filters.{is_met, matches};
ghost use Rattle.fk_model.specs.Glob.{globs};

use crate::globbing::glob;
use fk_json::{Text, Texts};
use fk_model::Filter;

/// Whether a row of this jid, of this jobtype and of this text meets each condition of the filter that is
/// there. The text is looked at only where there is a glob. It takes no memory.
pub fn matches(filter: &Filter, jid: &Text, jobtype: &Text, text: &[u8]) -> bool
    ensures { result ≡ matches filter.now jid.now jobtype.now text.now }
{
    is_same(&filter.jobtype, jobtype) && is_among(&filter.jids, jid) && globs(&filter.glob, text)
}

/// Whether the text is the one that is wanted, where one is.
fn is_same(wanted: &Option<Text>, text: &Text) -> bool
    ensures { result ≡ is_met (λ one. bytes_eq one text.now) wanted.now }
{
    match wanted {
        Some(one) => one == text,
        None => true,
    }
}

/// Whether the text is one of those that are wanted, where some are.
fn is_among(wanted: &Option<Texts>, text: &Text) -> bool
    ensures { result ≡ is_met (λ texts. list_any (bytes_eq text.now) texts) wanted.now }
{
    match wanted {
        Some(texts) => texts.as_slice().contains(text),
        None => true,
    }
}

/// Whether the pattern matches the text, where there is one.
fn globs(pattern: &Option<Text>, text: &[u8]) -> bool
    ensures { result ≡ is_met (λ one. globs one text.now) pattern.now }
{
    match pattern {
        Some(one) => glob(one.bytes(), text),
        None => true,
    }
}
