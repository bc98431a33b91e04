//! The program: `dcvalid check FILE` decides whether the formula of a file always holds, `dcvalid automaton FILE` writes its
//! minimal automaton, which `dcvalid certify` judges by its text alone, and `dcvalid implies FILE FILE` compares two formulas;
//! `dcvalid` alone lists its commands. All that it promises is the contract of `dcv_cli::program`; here the arguments, the files
//! and the two streams of the system are handed to it.
#![tactic(auto)]

use dcv_cli::program;
use dcv_io::{RealFiles, RealOut};
use std::alloc::Global;
use std::env;
use std::io::ErrorKind;
use std::process::ExitCode;
use std::rt::Env;

fn main(rt: HostRuntime) -> ExitCode {
    let arguments = arguments_of(&rt, rt.alloc());
    program(
        rt.alloc(),
        match &arguments {
            Ok(arguments) => Ok(arguments.as_slice()),
            Err(kind) => Err(*kind),
        },
        &mut RealFiles::new(&rt),
        &mut RealOut::output(rt.stdout()),
        &mut RealOut::error(rt.stderr()),
    )
}

// The arguments of the process, the program's name first.
fn arguments_of<R: Env + AllocGlobal>(rt: &R, alloc: Global) -> Result<Vec<String>, ErrorKind> {
    let mut arguments = Vec::new(alloc);
    match env::args(rt) {
        Ok(all) => {
            for argument in all {
                if arguments.push(argument).is_err() {
                    return Err(ErrorKind::OutOfMemory);
                }
            }
            Ok(arguments)
        }
        Err(fault) => Err(fault.kind()),
    }
}
