// Pushes along closed ways that pay, until none does.
#![tactic(auto)]

pub mod promises;
mod push;
mod routes;
mod run;
mod steps;
mod sweep;
mod walk;

pub use run::circulate;
