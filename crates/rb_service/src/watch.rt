//! What is known of a source while a stream runs.

use rb_source::ContextCounts;

/// Receives the counts of contexts.
pub(crate) trait SourceWatch {
    /// Receives the counts after each piece of contexts.
    fn read(&self, counts: ContextCounts);
}
