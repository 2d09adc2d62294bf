// Fields of a line: bytes in upper-case hexadecimal, two digits to a byte, and a single `-` for none.
// A line is put together anew from what was read of it, so what is no such field needs no answer of
// its own: its line differs.
ghost use Rattle.std.specs.Prelude.{◌≤◌, length};

// Decodes pairs of digits from the text's start on, as many as there are and fit, and answers how
// many bytes they are.
fn decode_pairs(text: &[u8], bytes: &mut [u8]) -> usize
    ensures { result ≤ length bytes.old }
{
    let mut count = 0;
    for (pair, slot) in text.chunks_exact(2).zip(bytes.iter_mut()) {
        let Some(byte) = digits::hexadecimal::decode_pair(pair[0], pair[1]) else {
            break;
        };
        *slot = byte;
        count += 1;
    }
    count
}

// The bytes of the field that follows a blank at the start of a line, which go to the start of
// `bytes`, and the rest of the line.
pub fn decode<'a, 'b>(line: &'a [u8], bytes: &'b mut [u8]) -> (&'b [u8], &'a [u8])
    ensures { length result.0.now ≤ length bytes.old }
{
    let Some((_blank, rest)) = line.split_first() else {
        return (&[], line);
    };
    let length = rest
        .iter()
        .position(|byte| *byte == b' ')
        .unwrap_or(rest.len());
    let (field, rest) = rest.split_at(length);
    let count = decode_pairs(field, bytes);
    (&bytes[..count], rest)
}
