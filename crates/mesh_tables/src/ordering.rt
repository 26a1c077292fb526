// The test of an order table: linear where the table is right, n log n where it is wrong, with no other table.
ghost use Rattle.std.specs.Prelude.{◌≡◌, ◌<◌};
ghost use Rattle.laws.specs.Least.{least};
ghost use Rattle.mesh_tables.specs.Rising.{rising_count};
ghost use Rattle.mesh.specs.Operation.{test};
ghost use Rattle.mesh.specs.Refusals.{tell_verdict};
ghost use Rattle.mesh.specs.Tests.{orders};

use crate::unchecked_order::{first_misplaced, goes_on};
use mesh::Refusal;

// How many leading entries are vertices, each before the next.
fn rising_prefix(coords: &[i32], order: &[u32]) -> usize
    ensures value { result ≡ rising_count coords.now order.now }
{
    let n = coords.len() / 3;
    for m in 0..n {
        if !goes_on(coords, order, m) {
            return m;
        }
    }
    n
}

// Refusal 8: the least position where the order table is missing an entry or wrong (STEP-7).
pub fn order_test(coords: &[i32], order: &[u32]) -> Result<(), Refusal>
    ensures told { tell_verdict result ≡ test (orders coords.now order.now) }
{
    let n = coords.len() / 3;
    let m = rising_prefix(coords, order);
    if m == n {
        return Ok(());
    }
    Err(Refusal::Order(first_misplaced(coords, order, m)))
}
