// What the program is asked.
ghost use Rattle.std.specs.Prelude.{◌≡◌};
ghost use Rattle.report.specs.Asked.{side_asked};

// The side that the first byte of the input asks for: `1` or `2`, and 0 for anything else or nothing.
pub fn side_asked(byte: Option<u8>) -> u8
    ensures { result ≡ side_asked byte }
{
    match byte {
        Some(b'1') => 1,
        Some(b'2') => 2,
        _ => 0,
    }
}
