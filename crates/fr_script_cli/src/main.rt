//! The program over `fr_script`: reads standard input, writes standard output, and ends with the
//! status of the run.
#![tactic(auto)]

use fr_script::{ReaderSource, WriterSink, run};
use std::alloc::AllocError;
use std::io::ErrorKind;
use std::process::ExitCode;
use std::rt::Env;
use std::{env, io};

/// The status where there is no memory for the words.
const OUT_OF_MEMORY: u8 = 6;

fn main(rt: HostRuntime) -> ExitCode {
    let Ok(words) = words_of(&rt) else {
        return ExitCode::from(OUT_OF_MEMORY);
    };
    let mut source = ReaderSource::new(rt.stdin());
    let mut sink = WriterSink::new(io::writer(&rt));
    ExitCode::from(run(rt.alloc(), words.as_slice(), &mut source, &mut sink))
}

/// The words after the program's name. Where the system gives none, or one that is no text, there
/// are none.
fn words_of(rt: &(impl Env + AllocGlobal)) -> Result<Vec<String>, AllocError> {
    let mut words = Vec::new(rt.alloc());
    let args = match env::args(rt) {
        Ok(args) => args,
        Err(e) if e.kind() == ErrorKind::OutOfMemory => return Err(AllocError),
        Err(_) => return Ok(words),
    };
    for word in args.skip(1) {
        words.push(word)?;
    }
    Ok(words)
}
