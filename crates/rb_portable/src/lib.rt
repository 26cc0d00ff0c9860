//! Reports where Linux refuses a program that this verifier accepts, for authors of programs that must run on both.
//!
//! `findings` returns each such unit with the reason, a *class*. A class is a predicate on an instruction and the
//! abstract state before it (`specs/Portability.antt`). `findings` is proved to return exactly the units whose
//! instruction has a class. That Linux refuses those units and no others is tested against Linux by
//! `tools/beside-linux`; docs/LINUX.md has a program for each class.
//!
//! ```text
//! // 07010000 08000000: r1 += 8;  79100000 00000000: r0 = *(u64 *)(r1 + 0)
//! let found = findings(alloc, &verified)?;
//! assert_eq!(rt; found[0].class.name(), "context-moved");
//! assert_eq!(rt; found[0].unit, 1);
//! ```
#![tactic(auto)]

mod all_findings;
mod classes;
mod finding;
mod linux_class;

pub use all_findings::{findings, findings_text};
pub use classes::class_of;
pub use finding::{Finding, push_finding};
pub use linux_class::LinuxClass;
