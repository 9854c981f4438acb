//! The program: the real store, source and sink, and the top call.
#![tactic(auto)]

mod real;

use real::{FileStore, ReaderSource, WriterSink};
use std::alloc::AllocError;
use std::env::Env;
use std::process::ExitCode;
use std::{env, io};
use vp_cmd::{Status, vphy};

/// The words after the program's name. Words that are no text are no command's.
fn words_of<R: Env + AllocGlobal>(rt: &R) -> Result<Vec<String>, AllocError> {
    match env::args(rt) {
        Ok(args) => args.skip(1).collect(rt.alloc()),
        Err(error) if error.kind() == io::ErrorKind::OutOfMemory => Err(AllocError),
        Err(_) => Ok(Vec::new(rt.alloc())),
    }
}

fn main(rt: HostRuntime) -> ExitCode {
    let Ok(words) = words_of(&rt) else {
        return ExitCode::from(Status::WantOfMemory as u8);
    };
    let mut store = FileStore::new(rt.alloc(), &rt);
    let mut input = ReaderSource::new(rt.reader());
    let mut out = WriterSink::new(io::writer(&rt));
    let status = vphy(rt.alloc(), &words, &mut store, &mut input, &mut out);
    ExitCode::from(status as u8)
}
