// Heights for the runs, as many as 32 bits hold.
ghost use Rattle.std.specs.Prelude.{◌≤◌, length};

// The heights 0, 1, 2 and so on.
pub fn rise(heights: &mut [i32])
    requires { length heights.old ≤ 4097 }
{
    for (i, h) in heights.iter_mut().enumerate() {
        *h = i as i32;
    }
}
