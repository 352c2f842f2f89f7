//! Standard error, on which nothing waits.

use libc::STDERR_FILENO;
use libc::net::{POLLOUT, poll};
use libc::types::pollfd;

/// Whether standard error takes a line, within so many milliseconds. A pipe that nobody reads takes none. What it takes has
/// room for 4,096 bytes (pipe(7), PIPE_BUF), so that a shorter line is written without a wait.
pub fn takes_line(milliseconds: u16) -> bool {
    let mut asked = [pollfd {
        fd: STDERR_FILENO,
        events: POLLOUT,
        revents: 0,
    }];
    poll(&mut asked, i32::from(milliseconds)) > 0
}
