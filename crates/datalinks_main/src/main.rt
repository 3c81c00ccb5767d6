//! The datalink manager: a script from standard input, done on the files of the current folder, and told to standard
//! output.
#![tactic(auto)]

mod machine;

use datalinks::{Status, single};
use dl_base::{List, Memory, Text};
use dl_host::{FolderBench, InputSource};
use machine::{Machine, Script, closed_streams, is_error_an_area, is_output_an_area};
use std::env;
use std::io::ErrorKind;
use std::process::ExitCode;

/// The words behind the program's name; none where one of them is no UTF-8.
fn given_words(rt: &HostRuntime) -> Result<Option<List<Text>>, Memory> {
    let mut words = List::empty(rt.alloc());
    let args = match env::args(rt) {
        Ok(args) => args,
        Err(why) if why.kind() == ErrorKind::OutOfMemory => return Err(Memory),
        Err(_) => return Ok(None),
    };
    for word in args.skip(1) {
        words.push(Text::of(rt.alloc(), word.as_bytes())?)?;
    }
    Ok(Some(words))
}

/// Does the command that the words name on the current folder.
fn run(rt: HostRuntime, words: &[Text]) -> Status {
    let mut source = InputSource::new(Script::new(rt));
    let (end, _) = single(
        rt.alloc(),
        words,
        &mut source,
        FolderBench::new(Machine::new(rt)),
    );
    end
}

fn outcome(rt: HostRuntime) -> Status {
    let Ok(_taken) = closed_streams(&rt) else {
        return Status::Device;
    };
    if is_output_an_area(&rt) || is_error_an_area(&rt) {
        return Status::Device;
    }
    match given_words(&rt) {
        Ok(Some(words)) => run(rt, words.as_slice()),
        Ok(None) => Status::Usage,
        Err(Memory) => Status::Memory,
    }
}

fn main(rt: HostRuntime) -> ExitCode {
    let code = outcome(rt).code();
    if code != 0 && !is_error_an_area(&rt) {
        let _ = eprintln!(rt; "datalinks: status {code}");
    }
    ExitCode::from(code)
}
