//! Sites and sources in memory for tests and looks: one of which a read gives a byte fewer, and those of which no call fails.
#![tactic(auto)]

mod short_site;
mod sure_site;
mod sure_source;

pub use short_site::ShortSite;
pub use sure_site::SureSite;
pub use sure_source::SureSource;
