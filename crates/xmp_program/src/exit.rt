//! The exit status.
ghost use Rattle.std.specs.Prelude.{◌≡◌};
ghost use Rattle.std.specs.Process.{exit_status};
ghost use Rattle.xmp_cli.specs.Statuses.{number_of};

use std::process::ExitCode;
use xmp_cli::Status;

/// What the process ends with: 0 where the command is done, 1 for findings, 2 for usage, 3 for a
/// refusal, 4 for a failed device, 5 for want of memory.
pub fn exit_code(status: Status) -> ExitCode
    ensures { exit_status result ≡ number_of status }
{
    ExitCode::from(status.number())
}
