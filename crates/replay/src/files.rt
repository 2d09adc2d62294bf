// Files of records, replayed line by line.
ghost use Rattle.std.specs.Prelude.{OnOk, ℕ, List};

use crate::output::{Tally, report};
use recorded_answer::Difference;
use std::io::Read;
use std::rt::Files;
use std::{fs, io};
use text::Text;
use text::lines::Reader;

// What the lines of a file record.
pub trait Recorded: Copy {
    // A line has the name, what it was made of, and the answer to that by its definition.
    ghost records: { Self → List ℕ → List ℕ → Type 0 };

    // Compares a line of a file of this name with ours, which is put into `text`.
    fn compare<'a>(self, name: &[u8], line: &[u8], text: &'a mut Text) -> Result<(), Difference<'a>>
        ensures { OnOk result (records self name.now line.now) };
}

// How many of the differing lines are shown.
const SHOWN: u64 = 10;

// Replays one line, and shows it where it differs and few did before it.
fn replay_line<R: Print, T: Recorded>(
    rt: &R,
    recorded: T,
    name: &str,
    number: u64,
    tally: &mut Tally,
    line: &[u8],
) -> io::Result<()> {
    let mut text = Text::new();
    let compared = recorded.compare(name.as_bytes(), line, &mut text);
    if let Err(difference) = compared
        && tally.different < SHOWN
    {
        report::different(rt, name, number, line, difference)?;
    }
    tally.count(compared.is_ok());
    Ok(())
}

// Replays every line of a file that is open for reading. A proved loop has to end, and nothing says
// that a file does: the loop counts its turns, up to a number that no run reaches.
fn replay_lines<R: Print, F: Read, T: Recorded>(
    rt: &R,
    file: &mut F,
    recorded: T,
    name: &str,
) -> io::Result<Tally> {
    let mut block = [0u8; 65536];
    let mut line = [0u8; 4096];
    let mut reader = Reader::new();
    let mut tally = Tally::default();
    for number in 1..=u64::MAX {
        match reader.next_line(file, &mut block, &mut line) {
            Ok(Some(length)) => {
                replay_line(rt, recorded, name, number, &mut tally, &line[..length])?;
            }
            Ok(None) => break,
            Err(fault) => {
                report::broken(rt, name, number, fault)?;
                tally.count_different();
                break;
            }
        }
    }
    Ok(tally)
}

// Opens the file NAME.txt for reading, if that can be.
fn open<R: Files>(rt: &R, name: &str) -> Option<R::File> {
    let mut path = Text::new();
    path.put(name.as_bytes());
    path.put(b".txt");
    let path = str::from_utf8(path.as_bytes()).ok()?;
    fs::open(rt, path).ok()
}

// Replays the file of a name, and says what it found.
fn replay_file<R: Files + Print, T: Recorded>(rt: &R, recorded: T, name: &str) -> io::Result<()> {
    let tally = match open(rt, name) {
        Some(mut file) => replay_lines(rt, &mut file, recorded, name)?,
        None => {
            report::unopened(rt, name)?;
            Tally {
                replayed: 0,
                different: 1,
            }
        }
    };
    report::sums(rt, name, tally)
}

// Replays the files of these names.
pub fn replay<R: Files + Print, T: Recorded>(rt: &R, files: &[(T, &str)]) -> io::Result<()> {
    for (recorded, name) in files {
        replay_file(rt, *recorded, name)?;
    }
    Ok(())
}
