// The unbounded table, with whole numbers in place of labels (document 02, Card 7: the growing-number table), fed with the numbers of a log.
#![tactic(auto)]

pub mod numbers;

ghost use Rattle.std.specs.Prelude.{◌≡◌, ◌≢◌, ◌≤◌, ◌<◌, length};
ghost use Rattle.simulation.specs.Calls.{Buffer};
ghost use Rattle.simulation.specs.Machine.{fresh};
ghost use Rattle.moves.specs.declared.Move.TheVariants.{Update};
ghost use Rattle.moves.specs.Moves.{call_of};
ghost use Rattle.unbounded.specs.Numbers.{order_by, NumberedBefore};
ghost use Rattle.unbounded.specs.Tables.{numbers_in, stateᵘ, Runnableᵘ, GivenTo, Turnsᵘ};

use arrays::{CURRENT, Control, Jobs, OrderedTable, Parts, Results};
use engine::Handed;
use moves::{Move, Refusal, Request, Room};

// Current and pending numbers.
pub type Numbers = [[u32; 32]; 2];

// The four arrays of a table of numbers.
pub type NumberParts = Parts<Numbers, Jobs, Control, Results>;

// The fresh table of n stations, with its scan order.
pub fn fresh(n: usize) -> OrderedTable<NumberParts>
    requires { (2 ≤ n) × (n ≤ 32) }
    ensures count_value { result.count ≡ n }
    ensures value { stateᵘ (numbers_in result) ≡ fresh 0 }
    ensures runnable { Runnableᵘ (numbers_in result) result.order }
{
    OrderedTable {
        count: n,
        order: numbers::first_order(n),
        parts: arrays::fresh_beside([[0; 32]; 2]),
    }
}

// What a move of the station at a place is given, where `used` of the numbers of the log are used up and z is the newest station: only a snap for a label
// takes a number, the next one. `None` if that is missing or does not fit; else the number, if the move takes one.
fn given_to(
    m: Move,
    place: usize,
    z: usize,
    current: &[u32; 32],
    log: &[u64],
    used: usize,
) -> Option<Option<u32>>
    requires { (z < 32) × (used ≤ length log.now) }
    ensures { GivenTo m place z current.now log.now used result }
{
    match m {
        Move::SnapLabel => {
            let v = *log.get(used)?;
            if !numbers::fits(current, z, place, v) {
                return None;
            }
            Some(Some(v as u32))
        }
        _ => Some(None),
    }
}

// Brings the scan order up to date after a move of the station at a place. Only an update can change it.
fn refresh_order(m: Move, place: usize, current: &[u32; 32], n: usize, order: &mut [usize; 32])
    requires place_lt_n { (place < n) × (n ≤ 32) }
    requires numbered_before { NumberedBefore n current.now place order.old }
    requires order_value { m ≢ Update → order.old ≡ order_by n current.now }
    ensures { order.new ≡ order_by n current.now }
{
    if let Move::Update = m {
        numbers::reorder(current, n, order, place);
    }
}

// What a step call comes to: how many numbers are used up then, and what it hands out. A refused call takes no number.
#[derive(Clone, Copy)]
pub struct NumberedTurn {
    pub used: usize,
    pub handed: Result<Handed, Refusal>,
}

// Serves a step call, up to what is written of it, where `used` of the numbers of the log are used up. `None` if the next number does not fit it:
// nothing changes then.
pub fn take_turn(
    request: Request,
    log: &[u64],
    used: usize,
    table: &mut OrderedTable<NumberParts>,
) -> Option<NumberedTurn>
    requires fact { Runnableᵘ (numbers_in table.old) table.old.order }
    requires used_in_bounds { used ≤ length log.now }
    ensures fact_2 { Turnsᵘ (numbers_in table.old) table.old.order (call_of request (Buffer 928)) log.now used
        (numbers_in table.new) table.new.order result }
    ensures fact_3 { Runnableᵘ (numbers_in table.new) table.new.order }
    ensures count_value { table.new.count ≡ table.old.count }
{
    let n = table.count;
    let z = table.order[n - 1];
    let room = Room::Buffer(928);
    let task = match engine::judge(
        n,
        request,
        &table.parts.control,
        &table.parts.results,
        room,
        z,
    ) {
        Ok(task) => task,
        Err(refusal) => {
            let handed = Err(refusal);
            return Some(NumberedTurn { used, handed });
        }
    };
    let m = task.action;
    let place = task.place;
    let parts = &table.parts;
    let number = given_to(m, place, z, &parts.labels[CURRENT], log, used)?;
    let handed = engine::carry_rest(
        n,
        Ok(task),
        &table.order,
        &mut table.parts.jobs,
        &mut table.parts.control,
        &mut table.parts.results,
    );
    numbers::renumber(
        Ok(m),
        place,
        z,
        number.unwrap_or(0),
        &mut table.parts.labels,
    );
    let parts = &table.parts;
    refresh_order(m, place, &parts.labels[CURRENT], n, &mut table.order);
    let used = used + usize::from(number.is_some());
    Some(NumberedTurn { used, handed })
}
