//! The statuses of the program.
ghost use Rattle.std.specs.Prelude.{◌≡◌, IfOk, OnErr, if◌then◌else◌};

/// The status that a run gives, and 2 after a fault.
pub fn of_run<E: Drop>(answer: &Result<u8, E>) -> u8
    ensures ok { IfOk answer.now (λ status. result ≡ status) }
    ensures fault { OnErr answer.now (result ≡ 2) }
{
    match answer {
        Ok(status) => *status,
        Err(_) => 2,
    }
}

/// 1 for a command line that can't be read, 0 for one that asks for help.
pub fn of_usage(is_error: bool) -> u8
    ensures { result ≡ (if is_error then 1 else 0) }
{
    if is_error { 1 } else { 0 }
}

/// 0 where all lines of an operator were taken, and 3 where one was refused.
pub fn of_lines(all_taken: bool) -> u8
    ensures { result ≡ (if all_taken then 0 else 3) }
{
    if all_taken { 0 } else { 3 }
}
