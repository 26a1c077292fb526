// The contours of a height from the list of its crossings, at the cost of their points.
#![tactic(auto)]

pub mod unchecked_contours;
