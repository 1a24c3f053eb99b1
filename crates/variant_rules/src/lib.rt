//! The variants that are built in and those of a variants file. `read_sections` reads the file whole and puts its
//! sections after those that are built in. `load` judges each section: it finds its first fault, in its own lines or
//! where its options and pieces contradict each other, or makes its rules of these and of what it inherits.
#![tactic(auto)]

mod built_in;
mod contradictions;
mod fault;
mod found;
mod kinds;
pub mod laws;
mod lettered;
mod letters;
mod lines;
mod loading;
mod named;
mod options;
mod regions;
mod resolved;
mod rules;
pub mod section_laws;
mod sections;
mod variants;

pub use built_in::builtin;
pub use contradictions::{contradiction, rules_fault};
pub use fault::{FileFault, LoadFault, NoSections, PrintedIni};
pub use found::Found;
pub use lettered::LetteredSections;
pub use lines::own_fault;
pub use loading::load;
pub use resolved::Resolved;
pub use rules::bare_rules;
pub use sections::read_sections;
pub use variant_model::SectionFault;
pub use variants::Variants;
