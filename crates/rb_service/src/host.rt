//! Access to the system for threads.

/// A runtime through which threads can reach the system.
///
/// A thread may call through a type parameter only what the parameter's bounds promise in every thread. `Files` promises
/// that only for one type of files, which the parameter chooses. So threads get the system itself.
pub trait Host {
    /// Returns the system.
    fn host(&self) -> &HostRuntime;
}

impl Host for HostRuntime {
    fn host(&self) -> &HostRuntime {
        self
    }
}
