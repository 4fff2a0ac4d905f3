ghost use Rattle.std.specs.Prelude.{◌≡◌, ◌≤◌, drop, length};

/// The bytes whose memory a buffer keeps for what comes.
const ROOM_KEPT: usize = 65_536;

/// Cuts off the first bytes of a buffer. It takes no memory, and gives back what the buffer has beyond
/// `ROOM_KEPT` bytes and what is left.
///
/// The bytes that are left are moved to the front: whoever cuts off at least as many as are left moves
/// no more bytes than went through the buffer.
pub fn give_up_first(buffer: &mut Vec<u8>, count: usize)
    requires within { count ≤ length buffer.old.items }
    ensures rest { buffer.new.items ≡ drop count buffer.old.items }
{
    cut_front(buffer, count);
    give_back_room(buffer);
}

// What is left is moved to the front, which costs what is left and not what is cut off.
#[tactic(auto, using(crate::proofs::Cuts::moved_down))]
fn cut_front(buffer: &mut Vec<u8>, count: usize)
    requires { count ≤ length buffer.old.items }
    ensures { buffer.new.items ≡ drop count buffer.old.items }
{
    let left = buffer.len() - count;
    buffer.copy_within(count.., 0);
    buffer.truncate(left);
}

fn give_back_room(buffer: &mut Vec<u8>)
    ensures { buffer.new.items ≡ buffer.old.items }
{
    if buffer.capacity() > ROOM_KEPT {
        buffer.shrink_to(ROOM_KEPT);
    }
}
