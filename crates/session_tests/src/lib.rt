//! What is only tested of the machines of a host: they run here over octets that were made by hand. A crate with tests
//! is proved twice, so these stand above the machines.
#![tactic(auto)]

#[cfg(test)]
mod ertm_machine_tests;
#[cfg(test)]
mod ertm_model_tests;
#[cfg(test)]
mod obex_session_tests;
#[cfg(test)]
mod push_client_tests;
#[cfg(test)]
mod push_profile_tests;
#[cfg(test)]
mod rfcomm_mux_tests;
