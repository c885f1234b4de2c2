// Tickets, yeses, ties and keys in bytes: made as another implementation of HMAC has them, and read and refused at the edges of what can be.
#![tactic(auto)]

#[cfg(test)]
mod tables;
#[cfg(test)]
mod tests;
