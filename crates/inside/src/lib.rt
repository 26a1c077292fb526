// A point in a contour, and the extent of a contour.

#![tactic(auto)]

pub mod unchecked;

// The extent of a contour: no point of it is left of, right of, below or above it.
#[derive(Clone, Copy, Debug, PartialEq, Eq)]
pub struct ContourExtent {
    pub left: i32,
    pub right: i32,
    pub low: i32,
    pub high: i32,
}
