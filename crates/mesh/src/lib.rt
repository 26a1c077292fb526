// Meshes: why a call is refused, and the tests of tables that every operation shares.

#![tactic(auto)]

pub mod limits;
pub mod refusals;
pub mod tests;
pub mod unchecked;

// Why a call is refused: case n is REFUSAL-n, with the place inside (FORM-7).
#[derive(Clone, Copy, Debug, PartialEq, Eq)]
pub enum Refusal {
    // 1: a length or a count does not fit.
    Size(usize),
    // 2: a number is out of coordinate range.
    Range(usize),
    // 3: a corner names no vertex.
    Vertex(usize),
    // 4: a triangle names a vertex twice.
    Triangle(usize),
    // 6: a corner finds no partner.
    Open(usize),
    // 7: the pairing is missing an entry or wrong.
    Pairing(usize),
    // 8: the order is missing an entry or wrong.
    Order(usize),
    // 9: a lent table is too short.
    Room(usize),
    // 10: more are passed than there are vertices.
    Passed(usize),
    // 11: the ring table is too short or wrong.
    Ring(usize),
    // 12: a height is not above what came before.
    Height(usize),
    // 13: a file breaks a rule.
    File(usize),
    // 14: the output is shorter than the file.
    Output(usize),
    // 15: the file has no such layer.
    Layer(usize),
    // 16: a walk meets a used crossing, not its start.
    Used(usize),
    // 17: the origin is not whole or out of range.
    Origin(usize),
    // 18: a contour of a file is not clean.
    Unclean(usize),
    // 19: a layer is too thin or too thick.
    Thickness(usize),
}
