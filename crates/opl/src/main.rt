//! The program `opl`: `run` over the files of the disk and the standard streams.
#![tactic(auto)]

ghost use Rattle.std.specs.Prelude.{◌≡◌};
ghost use Rattle.opl.specs.Status.{status_of};

use opl_outside::{RealShelf, RealSink, Sink};
use opl_tool::{Answer, run};
use std::env;
use std::io::{self, ErrorKind};
use std::process::ExitCode;
use std::rt::Env;

/// The status with which the program ends.
fn status(answer: Answer) -> u8
    ensures { result ≡ status_of answer }
{
    match answer {
        Answer::Done => 0,
        Answer::NoSolution => 1,
        Answer::Refused => 2,
        Answer::Spent => 3,
        Answer::ReadFault => 4,
        Answer::WriteFault => 5,
        Answer::OutOfMemory => 6,
        Answer::Rejected => 7,
    }
}

/// The words after the program's name; none where a word is no text, which no command takes.
fn words<R: Env + AllocGlobal>(rt: &R) -> io::Result<Vec<String>> {
    match env::args(rt) {
        Ok(mut args) => {
            let _name = args.next();
            let mut words = Vec::new(rt.alloc());
            for word in args {
                words.push(word)?;
            }
            Ok(words)
        }
        Err(e) if e.kind() == ErrorKind::InvalidData => Ok(Vec::new(rt.alloc())),
        Err(e) => Err(e),
    }
}

fn main(rt: HostRuntime) -> ExitCode {
    let mut shelf = RealShelf::new(&rt);
    let mut out = RealSink::new(io::writer(&rt));
    let mut err = RealSink::new(rt.stderr());
    let answer = match words(&rt) {
        Ok(words) => run(rt.alloc(), words.as_slice(), &mut shelf, &mut out, &mut err),
        Err(_) => {
            let _ = err.put(rt.alloc(), b"out of memory\n");
            Answer::OutOfMemory
        }
    };
    ExitCode::from(status(answer))
}
