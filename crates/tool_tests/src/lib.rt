//! What is only tested of scripts, of captures and of their views: they are read and written here beside texts and files
//! that were made by hand. A crate with tests is proved twice, so these stand above what they run.
#![tactic(auto)]

#[cfg(test)]
mod btsnoop_tests;
#[cfg(test)]
mod capture_reader_tests;
#[cfg(test)]
mod capture_samples;
#[cfg(test)]
mod capture_tests;
#[cfg(test)]
mod command_words_tests;
#[cfg(test)]
mod converting_tests;
#[cfg(test)]
mod enhanced_samples;
#[cfg(test)]
mod h4_view_tests;
#[cfg(test)]
mod link_samples;
#[cfg(test)]
mod link_tests;
#[cfg(test)]
mod mixed_samples;
#[cfg(test)]
mod push_script_tests;
#[cfg(test)]
mod rfcomm_samples;
#[cfg(test)]
mod showing;
#[cfg(test)]
mod snoop_tests;
#[cfg(test)]
mod tagged_entries_tests;
#[cfg(test)]
mod tagged_tests;
#[cfg(test)]
mod three_wire_tests;
