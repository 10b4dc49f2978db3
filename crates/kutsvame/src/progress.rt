//! What is said of work that takes long, on standard error and only where that is a terminal.
use std::io::IsTerminal;
use std::time::{Duration, Instant};

/// When something was said last; nothing where nothing is to be said.
#[derive(Drop)]
pub struct Progress {
    since: Option<Instant>,
}

impl Progress {
    /// Work that begins now.
    pub fn start(rt: &HostRuntime) -> Progress {
        let since = if rt.stderr().is_terminal() {
            Instant::now(rt).ok()
        } else {
            None
        };
        Progress { since }
    }

    /// Whether something is to be said, since a second has gone by. Where that cannot be known
    /// nothing is said, and the work goes on.
    pub fn is_due(&mut self, rt: &HostRuntime) -> bool {
        let Some(since) = self.since else {
            return false;
        };
        match since.elapsed(rt) {
            Ok(time) if time >= Duration::from_secs(1) => {
                self.since = Instant::now(rt).ok();
                true
            }
            _ => false,
        }
    }
}
