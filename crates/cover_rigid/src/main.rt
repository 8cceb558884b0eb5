// The program `cover` for a boom that only turns and shifts: reads a move file from standard input to its end, builds its chain as rigid, and prints the
// cover or the refusal.
// One byte more than a file may have is read, so that a longer file is refused.
#![tactic(auto)]

use std::process::ExitCode;

fn main(rt: HostRuntime) -> ExitCode {
    let mut input = [0u8; 65537];
    let Ok(n) = standard_streams::read(&mut rt.stdin(), &mut input) else {
        let _ = standard_streams::say_unread(&mut rt.stderr());
        return ExitCode::FAILURE;
    };
    let mut out = [0u8; 72];
    let written = motion_answer::answer(true, &input[..n], &mut out);
    match standard_streams::write(&mut rt.stdout(), &mut rt.stderr(), &out[..written]) {
        Ok(()) => ExitCode::SUCCESS,
        Err(_) => ExitCode::FAILURE,
    }
}
