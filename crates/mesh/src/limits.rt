// The limits of a mesh (LIMIT-1 to LIMIT-3), and of a run and a layer.
// Those that are compared with wider numbers stand here in 64 bits too, and as floats those that are compared with floats.

pub const MOST_VERTICES: usize = 32768;

pub const MOST_TRIANGLES: usize = 65536;

pub const LEAST_COORDINATE: i32 = -1048576;

pub const LARGEST_COORDINATE: i32 = 1048576;

pub const LEAST_COORDINATE_64: i64 = LEAST_COORDINATE as i64;

pub const LARGEST_COORDINATE_64: i64 = LARGEST_COORDINATE as i64;

pub const LEAST_COORDINATE_F32: f32 = -1048576.0;

pub const LARGEST_COORDINATE_F32: f32 = 1048576.0;

// The points of a run whose area is asked (LIMIT-6), of a layer of a file (LIMIT-7), and of one that is handed in (LIMIT-12).
pub const MOST_POINTS: usize = 98304;

pub const MOST_POINTS_64: u64 = MOST_POINTS as u64;
