//! What only runs of the program show: each form is run over ports in memory, and what it writes and stores is what was worked out by hand. The
//! rows of each form stand in tables of their own, and one path of owners (`runs`) runs them all.

mod alone;
mod controllers;
mod failing;
mod full_inbox;
mod losing;
mod moments;
mod numbers;
mod pushing;
mod runs;
