// Replays recorded answers: those of the original Rust and, of load check, booking, release and the
// guarded change, those of document 01, of the look-up those of document 02. Each call has a file of its
// name, with a line for each time that it was made: what it was given and what it answered (modules
// `reading` and `calls`). Our answer to the same is compared with the recorded one, and of each file the
// program says how many lines differ.
#![tactic(auto)]

mod calls;
mod files;
mod output;
mod reading;

use files::replay;
use reading::Reading;
use recorded_call::{lpsys, tasks};
use recorded_config::kinds as config;
use std::io;

const READINGS: [(Reading, &str); 4] = [
    (Reading::Plan, "plan"),
    (Reading::Clocks, "clocks"),
    (Reading::Lpsys, "lpsys"),
    (Reading::Load, "load"),
];

const LPSYS: [(lpsys::Call, &str); 10] = [
    (lpsys::Call::Request, "request"),
    (lpsys::Call::Safe, "safe"),
    (lpsys::Call::Wake, "wake"),
    (lpsys::Call::Cancel, "cancel"),
    (lpsys::Call::Hxt48, "hxt48"),
    (lpsys::Call::Hdiv, "hdiv"),
    (lpsys::Call::Div, "div"),
    (lpsys::Call::Mac, "mac"),
    (lpsys::Call::Sysclk, "sysclk"),
    (lpsys::Call::Peri, "peri"),
];

const CONFIG: [(config::Call, &str); 4] = [
    (config::Call::Calibrate, "calibrate"),
    (config::Call::Init, "init"),
    (config::Call::Reconfigure, "reconfigure"),
    (config::Call::Change, "change"),
];

const TASKS: [(tasks::Call, &str); 3] = [
    (tasks::Call::Book, "book"),
    (tasks::Call::Release, "release"),
    (tasks::Call::LookUp, "look_up"),
];

fn main(rt: HostRuntime) -> io::Result<()> {
    replay(&rt, &READINGS)?;
    replay(&rt, &LPSYS)?;
    replay(&rt, &CONFIG)?;
    replay(&rt, &TASKS)
}
