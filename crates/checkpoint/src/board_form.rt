//! What the board's bytes of a checkpoint are to meet.

ghost use Rattle.std.specs.Prelude.{◌≡◌, ◌+◌, ◌<◌, ◌≤◌, ◌^◌, min, map};
ghost use Rattle.board.specs.Restored.{chip_demands, pair_demands, timer_demands, port_demands};
ghost use Rattle.checkpoint.specs.Demands.{first_bad};
ghost use Rattle.checkpoint.specs.BoardTies.{fits_phase, low_fits, next_fits, left_fits};
ghost use Rattle.checkpoint.specs.Form.{board_demand, board_demands};

use crate::demand::{Demand, earlier, first_bad};
use board::{are_zero, controllers_at, eight_at, four_at, is_period_or_none};

fn board_demand(at: u32, met: bool) -> Demand
    requires { at < 2 ^ 30 }
    ensures { result ≡ board_demand (at, met) }
{
    let width = match at {
        16 | 20 => 4,
        24 => 8,
        _ => 1,
    };
    Demand {
        at: 128 + at,
        end: 128 + at + width,
        met,
    }
}

/// Whether a chip of this phase may have been ready before, or must.
fn fits_phase(phase: u8, once_ready: u8) -> bool
    ensures { result ≡ fits_phase phase once_ready }
{
    match phase {
        0 => once_ready != 1,
        1..=3 => true,
        _ => once_ready == 1,
    }
}

fn chip_demands(bytes: &[u8; 64], at: usize) -> [Demand; 5]
    requires { at + 7 ≤ 64 }
    ensures { result ≡ map board_demand (chip_demands bytes.now at) }
{
    let place = at as u32;
    [
        board_demand(place, bytes[at] <= 4),
        board_demand(place + 1, bytes[at + 1] <= 1),
        board_demand(place + 1, fits_phase(bytes[at], bytes[at + 1])),
        board_demand(place + 5, bytes[at + 5] % 8 == 0),
        board_demand(place + 6, bytes[at + 6] <= 1),
    ]
}

fn pair_demands(bytes: &[u8; 64]) -> [Demand; 1]
    ensures { result ≡ map board_demand (pair_demands bytes.now) }
{
    [board_demand(11, controllers_at(bytes).stands_for_slave())]
}

fn next_fits(period: u32, next_period: u32) -> bool
    ensures { result ≡ next_fits period next_period }
{
    period != 0 || next_period == 0
}

fn left_fits(period: u32, left: u64) -> bool
    ensures { result ≡ left_fits period left }
{
    if period == 0 {
        left == 0
    } else {
        0 < left && left <= 8 * period as u64
    }
}

fn low_fits(phase: u8, low: u8) -> bool
    ensures { result ≡ low_fits phase low }
{
    phase == 2 || low == 0
}

fn timer_demands(bytes: &[u8; 64]) -> [Demand; 6]
    ensures { result ≡ map board_demand (timer_demands bytes.now) }
{
    let period = four_at(bytes, 16);
    let next_period = four_at(bytes, 20);
    let left = eight_at(bytes, 24);
    [
        board_demand(14, bytes[14] <= 2),
        board_demand(15, low_fits(bytes[14], bytes[15])),
        board_demand(16, is_period_or_none(period)),
        board_demand(20, is_period_or_none(next_period)),
        board_demand(20, next_fits(period, next_period)),
        board_demand(24, left_fits(period, left)),
    ]
}

/// Where the bytes that wait end; there are at most 16, in a file of the form.
fn waiting_end(count: u8) -> usize
    ensures { result ≡ min (39 + count) 55 }
{
    (39 + count as usize).min(55)
}

fn port_demands(bytes: &[u8; 64]) -> [Demand; 5]
    ensures { result ≡ map board_demand (port_demands bytes.now) }
{
    let end = waiting_end(bytes[38]);
    [
        board_demand(32, bytes[32] <= 1),
        board_demand(34, bytes[34] < 16),
        board_demand(38, bytes[38] <= 16),
        board_demand(39, are_zero(&bytes[end..55])),
        board_demand(55, are_zero(&bytes[55..64])),
    ]
}

/// The first bad field of the board's bytes, in a file of which so many bytes are there.
#[tactic(auto, unfolding(board::specs::Restored::demands))]
pub fn bad_in_board(there: usize, bytes: &[u8; 64]) -> Option<u32>
    ensures { result ≡ first_bad there (board_demands bytes.now) }
{
    let master = first_bad(there, &chip_demands(bytes, 0));
    let slave = earlier(master, first_bad(there, &chip_demands(bytes, 7)));
    let pair = earlier(slave, first_bad(there, &pair_demands(bytes)));
    let timer = earlier(pair, first_bad(there, &timer_demands(bytes)));
    earlier(timer, first_bad(there, &port_demands(bytes)))
}
