// Runs planxdl's work on each file that an argument names: each is a case of its input.
#![tactic(auto)]

use plantext::files::Host;
use std::io;

fn main(rt: HostRuntime) -> io::Result<()> {
    let host = Host {
        rt: &rt,
        errors: &rt.stderr(),
    };
    host.list_files(b": ")
}
