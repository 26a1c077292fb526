// How far a layer file is as it should be, from a position on.

#![tactic(auto)]

pub mod unchecked_position;
mod watch;

// The position after the points of a contour, whether it may stand in the profile, and its doubled area.
#[derive(Clone, Copy, Debug, PartialEq, Eq)]
pub struct PointsEnd {
    pub at: usize,
    pub fits: bool,
    pub area: i64,
}

// The position after contours, for how many points their layer has room then, and the sum of their doubled areas.
#[derive(Clone, Copy, Debug, PartialEq, Eq)]
pub struct ContoursEnd {
    pub at: usize,
    pub room: u64,
    pub area: i64,
}

// The position after the contours of a layer, the counts of contours and points, and the sum of the doubled areas.
#[derive(Clone, Copy, Debug, PartialEq, Eq)]
pub struct CountsEnd {
    pub at: usize,
    pub contours: u64,
    pub points: u64,
    pub area: i64,
}

// The position after a layer, its height, and the sum of its doubled areas.
#[derive(Clone, Copy, Debug, PartialEq, Eq)]
pub struct LayerEnd {
    pub at: usize,
    pub height: i64,
    pub area: i64,
}

// The position after layers, and the height of the last.
#[derive(Clone, Copy, Debug, PartialEq, Eq)]
pub struct LevelsEnd {
    pub at: usize,
    pub height: i64,
}
