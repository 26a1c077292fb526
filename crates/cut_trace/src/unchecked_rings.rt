// Tracing: the contours of a table of links, each `requires` saying that the links lead round rings.
ghost use Rattle.std.specs.Prelude.{◌≡◌, true, ◌+◌, ◌≤◌, ◌<◌, length, get_or, Ok};
ghost use Rattle.std.proofs.lemmas.List.Edits.{sets};
ghost use Rattle.section.specs.Section.{no_corner};
ghost use Rattle.section.specs.Links.{trace_links};
ghost use Rattle.cut_trace.specs.Traces.{trace_answer, zeroed, names_after, ends_after};
ghost use Rattle.cut_trace.specs.Walks.{ring_of, strike, NoLinks, Sought, Seekable, Walkable, Traceable};
ghost use Rattle.mesh.specs.Corners.{most_corners};

use crate::UsedCrossing;
use mesh::unchecked::fill;
use polygons::LayerCounts;
use section::NO_CORNER;

// Writes the ring of `start` into names, from place `at` on, and takes its links out: the place after the last name.
fn walk(
    links: &mut [u32],
    names: &mut [u32],
    start: usize,
    at: usize,
) -> Result<usize, UsedCrossing>
    requires { Walkable links.old names.old start at }
    ensures value { result ≡ Ok (at + length (ring_of links.old start)) }
    ensures names_left { names.new ≡ sets names.old at (ring_of links.old start) }
    ensures links_left { links.new ≡ strike links.old (ring_of links.old start) }
{
    let mut c = start;
    let mut k = at;
    // Follows links, so no `for` fits.
    loop {
        let d = links[c] as usize;
        names[k] = c as u32;
        links[c] = NO_CORNER;
        k += 1;
        if d == start {
            return Ok(k);
        }
        if links[d] == NO_CORNER {
            return Err(UsedCrossing { at: d });
        }
        c = d;
    }
}

// Zeroes the first n entries of each table.
fn wipe(n: usize, marks: &mut [u32], names: &mut [u32], ends: &mut [u32])
    requires { (n ≤ length marks.old) × (n ≤ length names.old) × (n ≤ length ends.old) }
    ensures marks_left { marks.new ≡ zeroed n marks.old }
    ensures names_left { names.new ≡ zeroed n names.old }
    ensures ends_left { ends.new ≡ zeroed n ends.old }
{
    fill(marks, n, 0);
    fill(names, n, 0);
    fill(ends, n, 0);
}

// Whether the four corners from c on have no link. A link is at most NO_CORNER, so one sum tests all four, with no branch between.
fn no_links(links: &[u32], c: usize) -> bool
    requires { (c < most_corners) × (c + 3 < length links.now) }
    ensures sound { result ≡ true → NoLinks links.now c (c + 4) }
{
    let a = links[c] as usize + links[c + 1] as usize;
    let b = links[c + 2] as usize + links[c + 3] as usize;
    a + b == 4 * (NO_CORNER as usize)
}

// A corner from c on, at most n, with no link before it. Few corners have one, and by fours they are passed faster than one by one.
fn leap(n: usize, links: &[u32], c: usize) -> usize
    requires { Seekable n links.now c }
    ensures sought { Sought n links.now c result }
{
    let mut d = c;
    while d + 4 <= n && no_links(links, d) {
        d += 4;
    }
    d
}

// The first corner from c on that has a link, else n.
fn seek(n: usize, links: &[u32], c: usize) -> usize
    requires { Seekable n links.now c }
    ensures sought { Sought n links.now c result }
    ensures result { result < n → get_or links.now result 0 ≡ no_corner → ⊥ }
{
    for d in leap(n, links, c)..n {
        if links[d] != NO_CORNER {
            return d;
        }
    }
    n
}

// Takes the contours out of the first n links, by first corner, and leaves zeros there.
pub fn trace(
    n: usize,
    links: &mut [u32],
    names: &mut [u32],
    ends: &mut [u32],
) -> Result<LayerCounts, UsedCrossing>
    requires { Traceable n links.old names.old ends.old }
    ensures value { result ≡ trace_answer (trace_links n links.old) }
    ensures names_left { names.new ≡ names_after (trace_links n links.old) n
        names.old }
    ensures ends_left { ends.new ≡ ends_after (trace_links n links.old) n ends.old }
    ensures links_left { links.new ≡ zeroed n links.old }
{
    let mut c = seek(n, links, 0);
    let mut k: usize = 0;
    let mut j: usize = 0;
    // Goes from each corner with a link to the next one, so no `for` fits.
    while c < n {
        k = match walk(links, names, c, k) {
            Ok(end) => end,
            Err(met) => {
                wipe(n, links, names, ends);
                return Err(met);
            }
        };
        ends[j] = k as u32;
        j += 1;
        c = seek(n, links, c + 1);
    }
    fill(links, n, 0);
    Ok(LayerCounts {
        contours: j,
        points: k,
    })
}
