//! A host that is made of a site and does a part of what each call asks for. It tells what the site tells, so that a host can tell all and
//! keep to its trait, and what is proved over hosts is about something.
#![tactic(auto)]

mod test_host;

pub use test_host::TellingHost;
