// Three kinds of weight: points, points in a class, and shares.
#![tactic(auto)]

pub mod class;
pub mod classed;
pub mod points;
pub mod printed;
pub mod share;
