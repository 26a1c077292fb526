// Refusals as numbers and places.
ghost use Rattle.std.specs.Prelude.{◌≡◌};
ghost use Rattle.mesh.specs.Refusals.{number_of, place_of};

use crate::Refusal;

// The n of REFUSAL-n.
pub fn number_of(r: Refusal) -> u32
    ensures value { result ≡ number_of r }
{
    match r {
        Refusal::Size(_) => 1,
        Refusal::Range(_) => 2,
        Refusal::Vertex(_) => 3,
        Refusal::Triangle(_) => 4,
        Refusal::Open(_) => 6,
        Refusal::Pairing(_) => 7,
        Refusal::Order(_) => 8,
        Refusal::Room(_) => 9,
        Refusal::Passed(_) => 10,
        Refusal::Ring(_) => 11,
        Refusal::Height(_) => 12,
        Refusal::File(_) => 13,
        Refusal::Output(_) => 14,
        Refusal::Layer(_) => 15,
        Refusal::Used(_) => 16,
        Refusal::Origin(_) => 17,
        Refusal::Unclean(_) => 18,
        Refusal::Thickness(_) => 19,
    }
}

pub fn place_of(r: Refusal) -> usize
    ensures value { result ≡ place_of r }
{
    match r {
        Refusal::Size(p) => p,
        Refusal::Range(p) => p,
        Refusal::Vertex(p) => p,
        Refusal::Triangle(p) => p,
        Refusal::Open(p) => p,
        Refusal::Pairing(p) => p,
        Refusal::Order(p) => p,
        Refusal::Room(p) => p,
        Refusal::Passed(p) => p,
        Refusal::Ring(p) => p,
        Refusal::Height(p) => p,
        Refusal::File(p) => p,
        Refusal::Output(p) => p,
        Refusal::Layer(p) => p,
        Refusal::Used(p) => p,
        Refusal::Origin(p) => p,
        Refusal::Unclean(p) => p,
        Refusal::Thickness(p) => p,
    }
}
