// The C interface. Every function returns 0 or the refusal's number, and fills `out`: the place on refusal, the values on success.
#![tactic(auto)]

ghost use Rattle.mesh.specs.Meshes.{mesh, paired, ordered};
ghost use Rattle.polygons.specs.Flat.{flat};
ghost use Rattle.cleaning.specs.declared.Profile.TheVariants.{Full, Clean};
ghost use Rattle.check_mesh.specs.Check.{check_tables};
ghost use Rattle.cut.specs.Cut.{lent};
ghost use Rattle.sweep.specs.Sweep.{sweep};
ghost use Rattle.all_sweep.specs.AllLayers.{work};
ghost use Rattle.read_part.specs.Parts.{part};
ghost use Rattle.wadroles.specs.Interface.{CheckC, CutC, CleanC, ContourC, AreaC, StartC, StepC, LayerC, AllLayersC, ReadLayerC, ReadPartC};
ghost use Rattle.wadroles.specs.Interface.{PreviewC, PreviewRunC, InkC, NestingC};
ghost use Rattle.preview_floats.specs.DrawnPoints.{origin_at};
ghost use Rattle.preview.specs.Preview.{call_tables};
ghost use Rattle.nesting.specs.Nesting.{nest_tables};

use cleaning::Profile;
use out_words::{tell_answer, tell_preview, tell_step};
use preview_floats::Origin;
use sweep::State;

#[unsafe(no_mangle)]
pub extern "C" fn wadroles_check(
    coords: &[i32],
    corners: &[u32],
    pairing: &mut [u32],
    order: &mut [u32],
    out: &mut [u64; 4],
) -> u32
    ensures outcome { CheckC (mesh coords.now corners.now)
        (check_tables pairing.old order.old) out.old result
        (check_tables pairing.new order.new) out.new }
{
    let checked = check_mesh::check(coords, corners, pairing, order);
    tell_answer(checked, out)
}

#[unsafe(no_mangle)]
pub extern "C" fn wadroles_cut(
    coords: &[i32],
    corners: &[u32],
    pairing: &[u32],
    h: i32,
    names: &mut [u32],
    points: &mut [i32],
    ends: &mut [u32],
    marks: &mut [u32],
    out: &mut [u64; 4],
) -> u32
    ensures outcome { CutC (paired coords.now corners.now pairing.now) h
        (lent names.old points.old ends.old marks.old) out.old result
        (lent names.new points.new ends.new marks.new) out.new }
{
    let layer = cut::cut(coords, corners, pairing, h, names, points, ends, marks);
    tell_answer(layer, out)
}

#[unsafe(no_mangle)]
pub extern "C" fn wadroles_contour(
    points: &[i32],
    ends: &[u32],
    j: usize,
    out: &mut [u64; 4],
) -> u32
    ensures outcome { ContourC points.now ends.now j out.old result out.new }
{
    let p = contours::contour_part(points.len(), ends, j);
    let first = p.first;
    let length = p.length;
    out[0] = first as u64;
    out[1] = length as u64;
    0
}

#[unsafe(no_mangle)]
pub extern "C" fn wadroles_area(points: &[i32], out: &mut [u64; 4]) -> u32
    ensures outcome { AreaC points.now out.old result out.new }
{
    let measured = contours::area(points);
    tell_answer(measured, out)
}

#[unsafe(no_mangle)]
pub extern "C" fn wadroles_start(
    coords: &[i32],
    corners: &[u32],
    ring: &mut [u32],
    out: &mut [u64; 4],
) -> u32
    ensures outcome { StartC (mesh coords.now corners.now) ring.old
        out.old result ring.new out.new }
{
    let started = sweep::start(coords, corners, ring);
    tell_answer(started, out)
}

#[unsafe(no_mangle)]
pub extern "C" fn wadroles_step(
    coords: &[i32],
    corners: &[u32],
    pairing: &[u32],
    order: &[u32],
    ring: &mut [u32],
    passed: usize,
    out: &mut [u64; 4],
) -> u32
    ensures outcome { StepC (sweep
        (ordered coords.now corners.now pairing.now order.now)
        ring.old passed) out.old result ring.new out.new }
{
    let s = State { passed };
    let stepped = sweep::step(coords, corners, pairing, order, ring, s);
    tell_step(stepped, passed, out)
}

#[unsafe(no_mangle)]
pub extern "C" fn wadroles_layer(
    coords: &[i32],
    corners: &[u32],
    pairing: &[u32],
    order: &[u32],
    ring: &mut [u32],
    passed: usize,
    h: i32,
    names: &mut [u32],
    points: &mut [i32],
    ends: &mut [u32],
    marks: &mut [u32],
    out: &mut [u64; 4],
) -> u32
    ensures outcome { LayerC (sweep
        (ordered coords.now corners.now pairing.now order.now)
        ring.old passed) h
        (lent names.old points.old ends.old marks.old) out.old result
        ring.new (lent names.new points.new ends.new marks.new)
        out.new }
{
    let s = State { passed };
    let risen = sweep_layer::layer(
        coords, corners, pairing, order, ring, s, h, names, points, ends, marks,
    );
    tell_answer(risen, out)
}

#[unsafe(no_mangle)]
pub extern "C" fn wadroles_clean(
    points: &[i32],
    ends: &[u32],
    cleanpoints: &mut [i32],
    cleanends: &mut [u32],
    out: &mut [u64; 4],
) -> u32
    ensures outcome { CleanC (flat points.now ends.now)
        (flat cleanpoints.old cleanends.old) out.old result
        (flat cleanpoints.new cleanends.new) out.new }
{
    let cleaned = clean::clean(points, ends, cleanpoints, cleanends);
    tell_answer(cleaned, out)
}

#[unsafe(no_mangle)]
pub extern "C" fn wadroles_all_layers(
    coords: &[i32],
    corners: &[u32],
    pairing: &[u32],
    order: &[u32],
    heights: &[i32],
    names: &mut [u32],
    points: &mut [i32],
    ends: &mut [u32],
    marks: &mut [u32],
    ring: &mut [u32],
    output: &mut [u8],
    out: &mut [u64; 4],
) -> u32
    ensures outcome { AllLayersC Full
        (ordered coords.now corners.now pairing.now order.now)
        heights.now
        (work names.old points.old ends.old marks.old ring.old)
        output.old out.old result
        (work names.new points.new ends.new marks.new ring.new)
        output.new out.new }
{
    let filed = all_layers::all_layers(
        Profile::Full,
        coords,
        corners,
        pairing,
        order,
        heights,
        names,
        points,
        ends,
        marks,
        ring,
        output,
    );
    tell_answer(filed, out)
}

#[unsafe(no_mangle)]
pub extern "C" fn wadroles_all_layers_clean(
    coords: &[i32],
    corners: &[u32],
    pairing: &[u32],
    order: &[u32],
    heights: &[i32],
    names: &mut [u32],
    points: &mut [i32],
    ends: &mut [u32],
    marks: &mut [u32],
    ring: &mut [u32],
    output: &mut [u8],
    out: &mut [u64; 4],
) -> u32
    ensures outcome { AllLayersC Clean
        (ordered coords.now corners.now pairing.now order.now)
        heights.now
        (work names.old points.old ends.old marks.old ring.old)
        output.old out.old result
        (work names.new points.new ends.new marks.new ring.new)
        output.new out.new }
{
    let filed_clean = all_layers::all_layers(
        Profile::Clean,
        coords,
        corners,
        pairing,
        order,
        heights,
        names,
        points,
        ends,
        marks,
        ring,
        output,
    );
    tell_answer(filed_clean, out)
}

#[unsafe(no_mangle)]
pub extern "C" fn wadroles_read_layer(
    file: &[u8],
    i: usize,
    points: &mut [i32],
    ends: &mut [u32],
    out: &mut [u64; 4],
) -> u32
    ensures outcome { ReadLayerC Full file.now i
        (flat points.old ends.old) out.old result
        (flat points.new ends.new) out.new }
{
    let read = read_layer::read_layer(Profile::Full, file, i, points, ends);
    tell_answer(read, out)
}

#[unsafe(no_mangle)]
pub extern "C" fn wadroles_read_layer_clean(
    file: &[u8],
    i: usize,
    points: &mut [i32],
    ends: &mut [u32],
    out: &mut [u64; 4],
) -> u32
    ensures outcome { ReadLayerC Clean file.now i
        (flat points.old ends.old) out.old result
        (flat points.new ends.new) out.new }
{
    let read_clean = read_layer::read_layer(Profile::Clean, file, i, points, ends);
    tell_answer(read_clean, out)
}

#[unsafe(no_mangle)]
pub extern "C" fn wadroles_read_part(
    file: &[u8],
    coords: &mut [i32],
    corners: &mut [u32],
    heights: &mut [i32],
    out: &mut [u64; 4],
) -> u32
    ensures outcome { ReadPartC file.now
        (part coords.old corners.old heights.old) out.old result
        (part coords.new corners.new heights.new) out.new }
{
    let part = read_part::read_part(file, coords, corners, heights);
    tell_answer(part, out)
}

#[unsafe(no_mangle)]
pub extern "C" fn wadroles_preview(
    points: &[i32],
    ends: &[u32],
    x: f32,
    y: f32,
    number: usize,
    xy: &mut [f32; 2],
    out: &mut [u64; 4],
) -> u32
    ensures outcome { PreviewC (flat points.now ends.now) (origin_at x y) number
        xy.old out.old result xy.new out.new }
{
    let o = Origin { x, y };
    let shown = preview::preview(points, ends, o, number);
    tell_preview(shown, xy, out)
}

#[unsafe(no_mangle)]
pub extern "C" fn wadroles_preview_run(
    points: &[i32],
    ends: &[u32],
    x: f32,
    y: f32,
    number: usize,
    kinds: &mut [u8],
    xy: &mut [f32],
    out: &mut [u64; 4],
) -> u32
    ensures outcome { PreviewRunC (flat points.now ends.now) (origin_at x y) number
        (call_tables kinds.old xy.old) out.old result
        (call_tables kinds.new xy.new) out.new }
{
    let o = Origin { x, y };
    let drawn = preview::preview_run(points, ends, o, number, kinds, xy);
    tell_answer(drawn, out)
}

#[unsafe(no_mangle)]
pub extern "C" fn wadroles_ink(file: &[u8], thickness: u32, out: &mut [u64; 4]) -> u32
    ensures outcome { InkC file.now thickness out.old result out.new }
{
    let charged = ink::ink(file, thickness);
    tell_answer(charged, out)
}

#[unsafe(no_mangle)]
pub extern "C" fn wadroles_nesting(
    points: &[i32],
    ends: &[u32],
    depths: &mut [u32],
    parents: &mut [u32],
    out: &mut [u64; 4],
) -> u32
    ensures outcome { NestingC (flat points.now ends.now)
        (nest_tables depths.old parents.old) out.old result
        (nest_tables depths.new parents.new) out.new }
{
    let nested = nesting::nesting(points, ends, depths, parents);
    tell_answer(nested, out)
}
