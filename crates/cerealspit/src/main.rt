//! The program Cerealspit. It carries out a command of `copland_cli` over standard input and output,
//! with digests of the job's artefacts as measurements, and ends with the code of the status.
#![tactic(auto)]

mod words;

use bench_trait::DigestBench;
use byte_ports::{StdSink, StdSource};
use copland_cli::{refuse, top};
use report_text::Refusal;
use retrying_io::{RetryingReader, RetryingWriter};
use std::io::ErrorKind;
use std::process::ExitCode;
use words::words_of;

fn main(rt: HostRuntime) -> ExitCode {
    let alloc = rt.alloc();
    let mut source = StdSource::over(RetryingReader::over(rt.reader()));
    let mut sink = StdSink::over(RetryingWriter::over(rt.stdout()));
    let status = match words_of(&rt) {
        Ok(words) => top(
            &rt,
            alloc,
            words.as_slice(),
            &mut source,
            &mut sink,
            &DigestBench,
        ),
        Err(error) => match error.kind() {
            ErrorKind::OutOfMemory => refuse(&mut sink, &Refusal::NoMemory),
            // Words that aren't UTF-8 are wrong words, as none at all are.
            _ => top(&rt, alloc, &[], &mut source, &mut sink, &DigestBench),
        },
    };
    ExitCode::from(status.code())
}
