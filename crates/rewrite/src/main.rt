// Document 02's one way to write a move file, as a program: reads a file from standard input to its end, and prints its one form or its refusal.
// One byte more than a file may have is read, so that a longer file is refused. The longest text is that of 32 poses.
#![tactic(auto)]

use std::process::ExitCode;

fn main(rt: HostRuntime) -> ExitCode {
    let mut input = [0u8; 65537];
    let Ok(n) = standard_streams::read(&mut rt.stdin(), &mut input) else {
        let _ = standard_streams::say_unread(&mut rt.stderr());
        return ExitCode::FAILURE;
    };
    let mut out = [0u8; 4161];
    let written = file_rewrite::rewrite(&input[..n], &mut out);
    match standard_streams::write(&mut rt.stdout(), &mut rt.stderr(), &out[..written]) {
        Ok(()) => ExitCode::SUCCESS,
        Err(_) => ExitCode::FAILURE,
    }
}
