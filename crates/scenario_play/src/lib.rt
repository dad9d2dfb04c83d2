//! A scenario that is played: both hosts of Object Push in their world, over any shelf, any inbox and any trace.
#![tactic(auto)]

mod ending;
mod playing;
mod running;

pub use ending::{
    buffer_peaks_are_told, peaks_are_bounded, plays_break_off, plays_end, plays_gain,
    plays_gain_less, plays_keep, plays_keep_service, plays_serve, plays_spell_pushed,
    plays_stay_solvent, plays_store_done, plays_stream, wants_are_told, window_peaks_are_told,
};
pub use playing::{Played, play};
