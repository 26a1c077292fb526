// Answers as the C interface tells them: 0 or the refusal's number, and `out` with the place, or the values as words.
#![tactic(auto)]

ghost use Rattle.std.specs.Prelude.{ℕ, ◌≡◌, List, Some, set};
ghost use Rattle.std.proofs.lemmas.List.Edits.{sets};
ghost use Rattle.mesh.specs.Operation.{gives};
ghost use Rattle.mesh.specs.Refusals.{number_of, place_of, tell};
ghost use Rattle.sweep.specs.Operations.{tell_step};
ghost use Rattle.preview.specs.Preview.{tell_preview};
ghost use Rattle.out_words.specs.Words.{word_of, Says, no_words, one_word, signed_word, cut_words, step_words, layer_words};
ghost use Rattle.out_words.specs.Words.{read_layer_words, read_part_words, preview_words, xy_after};

use mesh::Refusal;
use mesh::refusals::{number_of, place_of};
use polygons::LayerCounts;
use preview::PathCall;
use read_layer::LayerRead;
use read_part::PartCounts;
use sweep::{Risen, State};

// What an operation gives, as words of `out`.
pub trait ValueWords {
    ghost words: { Self → List ℕ };

    // Puts them into the first entries; the others stay.
    fn put_values(self, out: &mut [u64; 4])
        ensures left { out.new ≡ sets out.old 0 (words self) };
}

// Check, Nesting.
impl ValueWords for () {
    ghost words = { no_words };

    fn put_values(self, _out: &mut [u64; 4]) {}
}

// All layers, the run of Preview.
impl ValueWords for usize {
    ghost words = { one_word };

    fn put_values(self, out: &mut [u64; 4]) {
        out[0] = self as u64;
    }
}

// Ink.
impl ValueWords for u64 {
    ghost words = { one_word };

    fn put_values(self, out: &mut [u64; 4]) {
        out[0] = self;
    }
}

// Area.
impl ValueWords for i64 {
    ghost words = { signed_word };

    fn put_values(self, out: &mut [u64; 4]) {
        out[0] = word_of(self);
    }
}

// Cut, Clean.
impl ValueWords for LayerCounts {
    ghost words = { λ c. cut_words (c.contours, c.points) };

    fn put_values(self, out: &mut [u64; 4]) {
        out[0] = self.contours as u64;
        out[1] = self.points as u64;
    }
}

// Start.
impl ValueWords for State {
    ghost words = { λ s. one_word s.passed };

    fn put_values(self, out: &mut [u64; 4]) {
        out[0] = self.passed as u64;
    }
}

// Layer.
impl ValueWords for Risen {
    ghost words = { λ r. layer_words (r.state.passed, (r.counts.contours, r.counts.points)) };

    fn put_values(self, out: &mut [u64; 4]) {
        out[0] = self.state.passed as u64;
        out[1] = self.counts.contours as u64;
        out[2] = self.counts.points as u64;
    }
}

// Read layer.
impl ValueWords for LayerRead {
    ghost words = { λ l. read_layer_words (l.layers, l.height, l.counts.contours, l.counts.points) };

    fn put_values(self, out: &mut [u64; 4]) {
        out[0] = self.layers as u64;
        out[1] = word_of(self.height as i64);
        out[2] = self.counts.contours as u64;
        out[3] = self.counts.points as u64;
    }
}

// Read part.
impl ValueWords for PartCounts {
    ghost words = { λ c. read_part_words (c.vertices, c.triangles, c.heights) };

    fn put_values(self, out: &mut [u64; 4]) {
        out[0] = self.vertices as u64;
        out[1] = self.triangles as u64;
        out[2] = self.heights as u64;
    }
}

// Puts a refusal's place into `out`, and returns its number.
pub fn refuse(r: Refusal, out: &mut [u64; 4]) -> u32
    ensures outcome { (result ≡ number_of r) × (out.new ≡ set out.old 0 (place_of r)) }
{
    out[0] = place_of(r) as u64;
    number_of(r)
}

// A signed value in two's complement.
pub fn word_of(z: i64) -> u64
    ensures value { result ≡ word_of z }
{
    z.cast_unsigned()
}

// Tells what an operation answers.
pub fn tell_answer<V: ValueWords>(answer: Result<V, Refusal>, out: &mut [u64; 4]) -> u32
    ensures outcome { Says V.words (tell (λ v. v) answer) out.old result out.new }
{
    match answer {
        Ok(values) => {
            values.put_values(out);
            0
        }
        Err(refusal) => refuse(refusal, out),
    }
}

// With so many passed before the step.
pub fn tell_step(answer: Result<Option<State>, Refusal>, passed: usize, out: &mut [u64; 4]) -> u32
    ensures outcome { Says (step_words passed) (tell_step answer) out.old result out.new }
{
    match answer {
        Ok(next) => match next {
            Some(s) => {
                out[0] = s.passed as u64;
                out[1] = 0;
                0
            }
            None => {
                out[0] = passed as u64;
                out[1] = 1;
                0
            }
        },
        Err(r) => refuse(r, out),
    }
}

// A call's kind and, for a move and a line, its two floats.
pub fn tell_call(c: PathCall, xy: &mut [f32; 2], out: &mut [u64; 4]) -> u32
    ensures outcome { Says preview_words (gives (Some c)) out.old result out.new }
    ensures left { xy.new ≡ xy_after (gives (Some c)) xy.old }
{
    match c {
        PathCall::Move(x, y) => {
            xy[0] = x;
            xy[1] = y;
            out[0] = 0;
            0
        }
        PathCall::Line(x, y) => {
            xy[0] = x;
            xy[1] = y;
            out[0] = 1;
            0
        }
        PathCall::Close => {
            out[0] = 2;
            0
        }
    }
}

pub fn tell_preview(
    answer: Result<Option<PathCall>, Refusal>,
    xy: &mut [f32; 2],
    out: &mut [u64; 4],
) -> u32
    ensures outcome { Says preview_words (tell_preview answer) out.old result out.new }
    ensures left { xy.new ≡ xy_after (tell_preview answer) xy.old }
{
    match answer {
        Ok(call) => match call {
            Some(c) => tell_call(c, xy, out),
            None => {
                out[0] = 3;
                0
            }
        },
        Err(r) => refuse(r, out),
    }
}
