// The worked pieces that are run (WORKED-2): prints what Check and All layers answer for them.
#![tactic(auto)]

use crate::unchecked::rise;
use cleaning::Profile;
use list_lines::unchecked_lines::write_refusal;
use mesh::Refusal;
use std::io;

mod unchecked;

fn say_refused<P: Print>(rt: &P, r: Refusal) -> io::Result<()> {
    let mut line = [0u8; 64];
    let n = write_refusal(&mut line, r);
    rt.write_all(&line[..n])
}

// Check of a single vertex (x, 0, 0) (WORKED-15).
fn check_coordinate<P: Print>(rt: &P, x: i32) -> io::Result<()> {
    print!(rt; "coordinate {x}: ")?;
    let coords = [x, 0, 0];
    let corners = [0u32; 1];
    let mut pairing = [0u32; 1];
    let mut order = [0u32; 1];
    match check_mesh::check(&coords, &corners[..0], &mut pairing, &mut order) {
        Ok(_) => println!(rt; "passes"),
        Err(r) => say_refused(rt, r),
    }
}

// All layers of an empty mesh at these heights (WORKED-16).
fn file_heights<P: Print>(rt: &P, heights: &[i32]) -> io::Result<()> {
    print!(rt; "{} heights: ", heights.len())?;
    let coords = [0i32; 1];
    let corners = [0u32; 1];
    let pairing = [0u32; 1];
    let order = [0u32; 1];
    let mut names = [0u32; 1];
    let mut points = [0i32; 1];
    let mut ends = [0u32; 1];
    let mut marks = [0u32; 1];
    let mut ring = [0u32; 1];
    let mut output = [0u8; 16384];
    let written = all_layers::all_layers(
        Profile::Full,
        &coords[..0],
        &corners[..0],
        &pairing[..0],
        &order[..0],
        heights,
        &mut names,
        &mut points,
        &mut ends,
        &mut marks,
        &mut ring,
        &mut output,
    );
    match written {
        Ok(_) => println!(rt; "pass"),
        Err(r) => say_refused(rt, r),
    }
}

fn main(rt: HostRuntime) -> io::Result<()> {
    check_coordinate(&rt, 1048576)?;
    check_coordinate(&rt, 1048577)?;
    let mut heights = [0i32; 4097];
    rise(&mut heights);
    file_heights(&rt, &heights[..4096])?;
    file_heights(&rt, &heights)
}
