// What is known of modules as JSON, both ways.
mod argument;
mod attributes;
mod descriptor;
mod info;
mod references;

pub use info::{InfoFault, info_from_json, info_to_json, read_info};
