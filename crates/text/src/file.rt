// The file that an argument names.
ghost use Rattle.std.specs.Prelude.{◌≤◌, ◌≡◌, IfSome, length, take};

use std::env::Env;
use std::fs;
use std::io::Read;
use std::rt::Files;

// Reads to the start of the buffer, and answers how many bytes came before the end, the buffer's, or
// a read that failed.
fn fill<F: Read>(file: &mut F, buffer: &mut [u8]) -> usize
    ensures { result ≤ length buffer.old }
{
    let mut done = 0;
    while let Ok(got @ 1..) = file.read(&mut buffer[done..]) {
        done += got;
    }
    done
}

// Opens the file that an argument names. A path is text in UTF-8; no file is opened by other bytes.
fn open<R: Env + Files>(rt: &R, argument: usize) -> Option<R::File> {
    let mut path = [0u8; 4096];
    let length = rt.arg(argument, &mut path).ok()?;
    let name = str::from_utf8(&path[..length]).ok()?;
    fs::open(rt, name).ok()
}

// Reads the file of an argument to the start of the buffer, and answers how many bytes came before
// the file's end, the buffer's, or a read that failed; none where the file cannot be opened.
pub fn read<R: Env + Files>(rt: &R, argument: usize, buffer: &mut [u8]) -> Option<usize>
    ensures in_bounds { IfSome result (λ count. count ≤ length buffer.new) }
    ensures len { IfSome result (λ count. count ≡ length (take count buffer.new)) }
{
    let mut file = open(rt, argument)?;
    Some(fill(&mut file, buffer))
}
