// What the program says of a file of records, on standard output.
use crate::output::tally::Tally;
use recorded_answer::Difference;
use std::io;
use text::lines::Fault;

// A line that differs, and how. A line may have any bytes, so it is written as it is.
pub fn different<R: Print>(
    rt: &R,
    name: &str,
    number: u64,
    line: &[u8],
    difference: Difference,
) -> io::Result<()> {
    print!(rt; "{name}: line {number}: ")?;
    rt.write_all(line)?;
    match difference {
        Difference::Answer(ours) => {
            print!(rt; ", answered ")?;
            rt.write_all(ours)?;
            println!(rt)
        }
        Difference::Overwritten => println!(rt; ", words past the entries changed"),
    }
}

// A line from which on the file is not read.
pub fn broken<R: Print>(rt: &R, name: &str, number: u64, fault: Fault) -> io::Result<()> {
    println!(rt; "{name}: line {number}: {fault}")
}

pub fn unopened<R: Print>(rt: &R, name: &str) -> io::Result<()> {
    println!(rt; "{name}: the file cannot be opened")
}

pub fn sums<R: Print>(rt: &R, name: &str, tally: Tally) -> io::Result<()> {
    println!(rt;
        "{name}: {} replayed, {} different",
        tally.replayed, tally.different
    )
}
