// Steps 1 to 5 of a Move, one after another. Depends on verify, settle, place, update, association, credit and packet.
#![tactic(auto)]

ghost use Rattle.std.specs.Prelude.{◌≡◌};
ghost use Rattle.steps.specs.Timely.{placement_at};

use association::Association;
use credit::TIME_LIMIT;
use locator::ListedLocator;
use packet::MoveFields;
use readdress::Placement;

// Steps 1 to 5 of a Move.
pub fn take_steps(a: &Association, m: MoveFields, listed: &[ListedLocator]) -> Placement
    ensures { result ≡ placement_at a.now m listed.now }
{
    let mut placed = Placement {
        slots: a.slots,
        preferred: a.preferred,
    };
    // Refusal 0 refuses such a time; no step is taken.
    if TIME_LIMIT <= a.time {
        return placed;
    }
    // Step 1: the echo response turns a slot ACTIVE.
    verify::verify_all(&mut placed.slots, m.echo);
    // Step 2: a new SPI deprecates what is held.
    settle::rebind(&mut placed.slots, m.new != a.outbound);
    // Step 3: what is held and listed is renewed.
    settle::renew_all(&mut placed.slots, a.time, listed);
    // Step 4: what is held and not listed is deprecated.
    settle::retire_all(&mut placed.slots, listed);
    // Step 5: what is listed and not held takes a slot.
    place::place_all(&mut placed, a.time, listed);
    placed
}
