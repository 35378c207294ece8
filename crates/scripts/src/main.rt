//! Plays scripts of whole runs: reads their names from standard input, and says of each whether every run wrote
//! exactly the replies that the script tells. `docs/SCRIPTS.md` has the format.
#![tactic(auto)]

mod given;
mod narrow;
mod play;

use std::{fs, io};

/// What is said of the script of a name.
fn verdict(rt: &HostRuntime, name: &str) -> io::Result<String> {
    let alloc = rt.alloc();
    let path = format!(in alloc; "{name}.script")?;
    let Ok(text) = fs::read_to_string(rt, &path) else {
        return Ok(format!(in alloc; "can't be read")?);
    };
    Ok(play::verdict(alloc, &text)?)
}

fn main(rt: HostRuntime) -> io::Result<()> {
    for line in rt.lines(rt.alloc()) {
        let name = line?;
        let verdict = verdict(&rt, &name)?;
        println!(rt; "{name}: {verdict}")?;
    }
    Ok(())
}
