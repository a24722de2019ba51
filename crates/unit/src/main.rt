// The console: obeys a script of commands, one to a line, and answers each by one line.
#![tactic(auto)]

mod answer;
mod call;
mod claim;
mod command;
mod console;
mod description;
mod held;
mod misread;
mod mistake;
mod present;
mod refused;
mod rows;
mod stage;
mod unmet;

use console::Console;
use std::io::{BufRead, BufReader, Read};
use std::rt::Files;
use std::{env, fs, io};

fn main(rt: HostRuntime) -> io::Result<()> {
    // the first is the program's own name
    let Some(script) = env::args(&rt)?.nth(1) else {
        return obey(&rt, rt.stdin());
    };
    match fs::open(&rt, script.as_str()) {
        Ok(file) => obey(&rt, file),
        Err(_) => println!(rt; "error: cannot open {script}"),
    }
}

// A line that is no text is obeyed as text with marks in place of its faults, so that it gets its answer too.
fn obey<R: Read + Drop>(rt: &(impl Files + Print + AllocGlobal), script: R) -> io::Result<()> {
    let heap = rt.alloc();
    let mut console = Console::new();
    for line in BufReader::new(heap, script)?.split(heap, b'\n') {
        let Ok(bytes) = line else {
            return println!(rt; "error: the script cannot be read on");
        };
        let text = String::from_utf8_lossy(heap, bytes.as_slice())?;
        respond(rt, &mut console, text.trim())?;
    }
    Ok(())
}

fn respond(
    rt: &(impl Files + Print + AllocGlobal),
    console: &mut Console,
    line: &str,
) -> io::Result<()> {
    if line.is_empty() || line.starts_with('#') {
        return Ok(());
    }
    println!(rt; "> {line}")?;
    match console.obey(rt, line) {
        Ok(answer) => println!(rt; "{answer}"),
        Err(failure) => println!(rt; "{failure}"),
    }
}
