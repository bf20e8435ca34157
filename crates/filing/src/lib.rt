// Systems from file bytes: the format's records, filing, and the filed system.
#![tactic(auto)]

pub mod fault;
pub mod filed;
pub mod filing;
mod header;
mod record;
mod records;
