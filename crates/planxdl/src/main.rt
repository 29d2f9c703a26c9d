// Plans, on standard input or in files, and their display lists on standard output, as text or as bytes.
#![tactic(auto)]

use plantext::files::Host;
use std::env::Env;
use std::io;
use std::rt::Files;

const USAGE: &str = "usage: planxdl [FILE..]\n       planxdl --bytes [FILE]\n";

// What --help prints below the usage.
const HELP: &str = "\
Reads a plan, from standard input where no FILE is named, and prints its display
list: a line with the number of bytes, then one line a record in hex. A plan
that is refused prints the number of the refusal and the item (docs/HELP.md).
Before each of several lists stands a line with the file's name.
--bytes writes the list itself, and a refusal to standard error.
Beside it: planlines prints what each line of a plan shows; desk-run, at the top
of the repository, builds a program and runs it: ./desk-run planlines --help
";

// --bytes, with a file or without.
fn bytes<R: Env + Files + Input + Print, E: Print>(host: &Host<R, E>) -> io::Result<()> {
    match host.count() {
        2 => host.write_file(0),
        3 => host.write_file(2),
        _ => host.errors.print(USAGE),
    }
}

fn texts<R: Env + Files + Input + Print, E: Print>(host: &Host<R, E>) -> io::Result<()> {
    match host.count() {
        0 | 1 => host.list_file(0, None),
        2 => host.list_file(1, None),
        _ => host.list_files(b"\n"),
    }
}

fn main(rt: HostRuntime) -> io::Result<()> {
    let errors = rt.stderr();
    let host = Host {
        rt: &rt,
        errors: &errors,
    };
    if host.is(1, b"--help") {
        print!(rt; "{USAGE}{HELP}")
    } else if host.is(1, b"--bytes") {
        bytes(&host)
    } else if host.is_option(1) {
        errors.print(USAGE)
    } else {
        texts(&host)
    }
}
