// Every byte in the places where its kind matters.
use crate::told::told;

#[test]
fn every_byte(rt: HostRuntime) {
    let heap = rt.alloc();
    for byte in 0..=255u8 {
        let alone = match byte {
            b'a'..=b'z' => (5, 1, 1),
            b'.' | b',' => (5, 1, 0),
            b' ' | b'\t' | b'\r' | b'\n' | b'%' => (0, 0, 0),
            _ => (3, 1, 0),
        };
        assert_eq!(rt; told(heap, 1, &[byte], b"", b""), alone, "{}", byte);
        let in_a_fact = match byte {
            b'a'..=b'z' | b'A'..=b'Z' | b'0'..=b'9' | b'_' => (0, 0, 0),
            b' ' | b'\t' | b'\r' | b'\n' => (0, 0, 0),
            b'%' => (5, 1, 3),
            b'.' => (5, 1, 2),
            b',' => (5, 1, 1),
            _ => (3, 1, 1),
        };
        assert_eq!(rt;
            told(heap, 1, &[b'a', byte, b'.'], b"", b""),
            in_a_fact,
            "{}",
            byte
        );
        let after_a_colon = if byte == b'-' { (5, 1, 2) } else { (3, 1, 0) };
        assert_eq!(rt;
            told(heap, 1, &[b':', byte], b"", b""),
            after_a_colon,
            "{}",
            byte
        );
        let in_a_comment = if byte == b'\n' { (3, 1, 2) } else { (0, 0, 0) };
        assert_eq!(rt;
            told(heap, 1, &[b'%', byte, b'A'], b"", b""),
            in_a_comment,
            "{}",
            byte
        );
    }
}
