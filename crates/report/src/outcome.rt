// How a program ends.
ghost use Rattle.std.specs.Process.{exit_status};
ghost use Rattle.report.specs.Outcome.{status_of};
ghost use Rattle.std.specs.Prelude.{◌≡◌};

use std::fmt;
use std::io::Eprint;
use std::process::ExitCode;

// What `main` returns: an error is told on standard error, as far as that can be written.
// No clause can say what reaches standard error.
pub fn exit_code<E: fmt::Display + Drop>(rt: &impl Eprint, outcome: Result<(), E>) -> ExitCode
    ensures { exit_status result ≡ status_of outcome }
{
    match outcome {
        Ok(()) => ExitCode::SUCCESS,
        Err(error) => {
            let _ = rt.eprintln(&error);
            ExitCode::FAILURE
        }
    }
}
