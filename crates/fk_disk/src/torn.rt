ghost use Rattle.std.specs.Prelude.{◌≡◌, ◌<◌, length, true, slice_index, slice_index_or, if◌then◌else◌, IfOk};
ghost use Rattle.fk_disk.specs.DiskState.{torn};

use fk_json::Text;
use std::alloc::{AllocError, Global};

/// What a torn byte is seen as.
const TORN: u8 = 255;

/// The bytes of a file with each one that was written since the last good sync replaced by 255. It has
/// a mark, or stands past the marks.
#[tactic(auto, using(crate::proofs::Tearing::torn_more, crate::proofs::Tearing::whole))]
pub(crate) fn torn(alloc: Global, content: &[u8], marks: &[bool]) -> Result<Text, AllocError>
    ensures { IfOk result (λ text. text ≡ torn content.now marks.now) }
{
    let mut text = Text::with_room(alloc, content.len())?;
    'marking: for place in 0..content.len() {
        text.push_bytes(&[torn_byte(content, marks, place)])?;
    }
    Ok(text)
}

/// The byte at a place, or 255 where it was written.
fn torn_byte(content: &[u8], marks: &[bool], place: usize) -> u8
    requires { place < length content.now }
    ensures { result ≡ (if slice_index_or marks.now place true then 255
        else slice_index content.now place) }
{
    match marks.get(place) {
        Some(false) => content[place],
        _ => TORN,
    }
}
