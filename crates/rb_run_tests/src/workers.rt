//! Jobs on threads through public calls: runs that return a report, runs that are refused, chapters that rings hand
//! out, and reuse of sheets.

mod chapters;
mod given;
mod late_consumer;
mod refused;
mod runs;
mod sheets;
