// The tests of a mesh that anyone may hand in (CHECK-15), with its pairing (refusal 7) and its order (refusal 8).
#![tactic(auto)]

pub mod ordering;
pub mod tests;
pub mod unchecked_order;
pub mod unchecked_pairing;
pub mod unchecked_tests;

// The tests of a mesh, by what they look at.
#[derive(Clone, Copy, Debug, PartialEq, Eq)]
pub enum MeshTest {
    Size,
    Range,
    Vertex,
    Triangle,
    Pairing,
    Order,
}
