//! What is answered to a text: a number and two places.
#![tactic(auto)]

/// The number, 0 where nothing is wrong, and the places that it names; places that a number does not name are 0.
#[derive(Clone, Copy, Debug, PartialEq, Eq)]
pub struct Answer {
    pub number: u8,
    pub first: u16,
    pub second: u16,
}
