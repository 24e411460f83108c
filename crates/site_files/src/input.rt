// What is read of the standard input.
ghost use Rattle.std.specs.Prelude.{◌≡◌, IfOk, IfSome, slice_get};

use std::io;
use std::io::Read;

// The first byte of the input, if there is one.
pub fn first_byte<R: Read>(input: &mut R) -> io::Result<Option<u8>>
    ensures { IfOk result (λ byte. IfSome (R.remaining input.old) (λ bytes. byte ≡ slice_get bytes 0)) }
{
    let mut byte = [0u8; 1];
    if input.read(&mut byte)? == 0 {
        return Ok(None);
    }
    Ok(Some(byte[0]))
}
