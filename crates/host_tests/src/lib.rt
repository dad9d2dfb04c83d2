//! What is only tested of the hosts, the radio between them and its worlds: they run here over octets that were made by
//! hand. A crate with tests is proved twice, so these stand above what they run.
#![tactic(auto)]

#[cfg(test)]
mod bt_host_tests;
#[cfg(test)]
mod fronts_tests;
#[cfg(test)]
mod host_link_tests;
#[cfg(test)]
mod l2cap_channels_tests;
#[cfg(test)]
mod radio_air_tests;
#[cfg(test)]
mod tiny_hosts_tests;
