// The end before a contour's: its `requires` is that there is such a contour.
ghost use Rattle.std.specs.Prelude.{◌≡◌, ◌<◌, length};
ghost use Rattle.polygons.specs.Flat.{end_before};

// The end before that of contour j, 0 for the first (CONTOUR-2).
pub fn prior_end(ends: &[u32], j: usize) -> usize
    requires { j < length ends.now }
    ensures value { result ≡ end_before 0 ends.now j }
{
    if j == 0 {
        return 0;
    }
    ends[j - 1] as usize
}
