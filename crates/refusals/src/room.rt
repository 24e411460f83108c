// Writing into a caller's buffer: all of it, or nothing.
ghost use Rattle.std.specs.Result.{MatchResult};
ghost use Rattle.refusals.specs.Room.{Written, Unwritten};

use crate::fault::Fault;

// Question 17: do the bytes fit? Writes them at the start of `out`, and gives their number.
pub fn write_whole(bytes: &[u8], out: &mut [u8]) -> Result<usize, Fault>
    ensures { MatchResult result (Written bytes.now out.old out.new) (Unwritten bytes.now out.old out.new) }
{
    let end = bytes.len();
    if out.len() < end {
        return Err(Fault::NoRoom);
    }
    out[0..end].copy_from_slice(bytes);
    Ok(end)
}
