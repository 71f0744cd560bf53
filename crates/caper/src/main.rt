//! Verifies a program, `caper verify FILE`, writes its proof, `caper derive FILE`, judges such a proof,
//! `caper check FILE DERIVATION`, shows its canonical text, `caper show FILE`, or runs it,
//! `caper replay FILE SCHEDULE`.
#![tactic(auto)]

use cap_io::{FileShelf, StdSink};
use cap_top::{Status, run};
use std::alloc::AllocError;
use std::env;
use std::io::ErrorKind;
use std::process::ExitCode;
use std::rt::Env;

// The bytes of a block that is taken at the start, and given back at once. The C library then keeps
// up to twice as many free bytes for later blocks. Otherwise it hands the room of each elimination
// back to the system, and the room of the next one is new to the process, page by page.
const KEPT: usize = 1 << 24;

/// The words after the program's name. Where one is not text there are none, which is no command.
fn words<R: Env + AllocGlobal>(rt: &R) -> Result<Vec<String>, AllocError> {
    match env::args(rt) {
        Ok(all) => all.skip(1).collect(rt.alloc()),
        Err(error) if error.kind() == ErrorKind::OutOfMemory => Err(AllocError),
        Err(_) => Ok(Vec::new(rt.alloc())),
    }
}

fn main(rt: HostRuntime) -> ExitCode {
    let alloc = rt.alloc();
    drop(Vec::<u8>::with_capacity(alloc, KEPT));
    let status = match words(&rt) {
        Ok(words) => {
            let mut shelf = FileShelf::new(alloc, &rt);
            let mut sink = StdSink::new(rt.stdout());
            run(alloc, &words, &mut shelf, &mut sink)
        }
        Err(_) => Status::NoMemory,
    };
    ExitCode::from(status.code())
}
