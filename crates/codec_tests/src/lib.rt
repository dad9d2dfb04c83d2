//! What is only tested of the codecs and of the small machines beside them: they run here over octets that were worked
//! out by hand or by the standard. A crate with tests is proved twice, so these stand above the codecs.
#![tactic(auto)]

#[cfg(test)]
mod acl_credits_tests;
#[cfg(test)]
mod acl_fragments_tests;
#[cfg(test)]
mod bt_base_tests;
#[cfg(test)]
mod check_words_tests;
#[cfg(test)]
mod draws_tests;
#[cfg(test)]
mod ertm_frames_tests;
#[cfg(test)]
mod h4_framing_tests;
#[cfg(test)]
mod hci_packets_tests;
#[cfg(test)]
mod l2cap_config_tests;
#[cfg(test)]
mod l2cap_signal_tests;
#[cfg(test)]
mod obex_headers_tests;
#[cfg(test)]
mod rfcomm_credits_tests;
#[cfg(test)]
mod rfcomm_frames_tests;
#[cfg(test)]
mod sdp_client_tests;
#[cfg(test)]
mod sdp_elements_tests;
#[cfg(test)]
mod sdp_server_tests;
pub mod tables;
#[cfg(test)]
mod wire_packets_tests;
