// A tray keeps what is put into it in the order in which it came, in memory that is lent to it.
#![tactic(auto)]

#[cfg(test)]
mod tests;
mod tray;

pub use tray::Tray;
