//! What 64 bytes say of a board.

ghost use Rattle.std.specs.Prelude.{◌≡◌, ◌+◌, ◌≤◌, true, ◌&&◌, slice_index};
ghost use Rattle.pic8259.specs.Requests.{pair_fits};
ghost use Rattle.pic8259.specs.Pairs.{stands_for_slave};
ghost use Rattle.pit8254.specs.Counts.{is_count};
ghost use Rattle.uart16550.specs.States.{port_fits};
ghost use Rattle.board.specs.Restored.{four_at, eight_at, phase_of, selected_of, timer_phase_of, period_of, count_of, chip_at, controllers_at, timer_at, waiting_at, are_zero, chip_demands, is_period_or_none, timer_demands, port_demands};
ghost use Rattle.board.specs.Form.{settings_at, all_met, board_form};

use pic8259::{Chip, Pair, Phase as ChipPhase, Selected};
use pit8254::{Count, Phase as TimerPhase, Timer};
use uart16550::Settings;

/// The number of four bytes at a place of a board's bytes, the lowest byte first.
pub fn four_at(bytes: &[u8; 64], at: usize) -> u32
    requires { at + 4 ≤ 64 }
    ensures { result ≡ four_at bytes.now at }
{
    let mut four = [0; 4];
    four.copy_from_slice(&bytes[at..at + 4]);
    u32::from_le_bytes(four)
}

/// The number of eight bytes at a place of a board's bytes, the lowest byte first.
pub fn eight_at(bytes: &[u8; 64], at: usize) -> u64
    requires { at + 8 ≤ 64 }
    ensures { result ≡ eight_at bytes.now at }
{
    let mut eight = [0; 8];
    eight.copy_from_slice(&bytes[at..at + 8]);
    u64::from_le_bytes(eight)
}

fn phase_of(number: u8) -> ChipPhase
    ensures { result ≡ phase_of number }
{
    match number {
        0 => ChipPhase::Never,
        1 => ChipPhase::AwaitsBase,
        2 => ChipPhase::AwaitsCascade,
        3 => ChipPhase::AwaitsMode,
        _ => ChipPhase::Ready,
    }
}

fn chip_at(bytes: &[u8; 64], at: usize) -> Chip
    requires { at + 7 ≤ 64 }
    ensures { result ≡ chip_at bytes.now at }
{
    Chip {
        phase: phase_of(bytes[at]),
        once_ready: bytes[at + 1] == 1,
        interrupt_request: bytes[at + 2],
        in_service: bytes[at + 3],
        interrupt_mask: bytes[at + 4],
        base: bytes[at + 5],
        selected: if bytes[at + 6] == 0 {
            Selected::InterruptRequest
        } else {
            Selected::InService
        },
    }
}

/// Both controllers: the master's seven bytes from 0 on, the slave's from 7 on.
pub fn controllers_at(bytes: &[u8; 64]) -> Pair
    ensures { result ≡ controllers_at bytes.now }
{
    Pair {
        master: chip_at(bytes, 0),
        slave: chip_at(bytes, 7),
    }
}

fn count_of(period: u32, next_period: u32, left: u64) -> Option<Count>
    ensures { result ≡ count_of period next_period left }
{
    if period == 0 {
        return None;
    }
    Some(Count {
        period,
        next_period: if next_period == 0 {
            None
        } else {
            Some(next_period)
        },
        left,
    })
}

/// The timer, of bytes 14 to 31: its phase, a low byte that waits, its period and its next one, and the steps left.
pub fn timer_at(bytes: &[u8; 64]) -> Timer
    ensures { result ≡ timer_at bytes.now }
{
    Timer {
        phase: match bytes[14] {
            0 => TimerPhase::AwaitsControlWord,
            1 => TimerPhase::AwaitsLow,
            _ => TimerPhase::AwaitsHigh(bytes[15]),
        },
        count: count_of(four_at(bytes, 16), four_at(bytes, 20), eight_at(bytes, 24)),
    }
}

/// What the serial port was set to, of bytes 32 to 37.
pub fn settings_at(bytes: &[u8; 64]) -> Settings
    ensures { result ≡ settings_at bytes.now }
{
    Settings {
        interrupt_enable: bytes[32] == 1,
        line_control: bytes[33],
        modem_control: bytes[34],
        scratch: bytes[35],
        divisor_latch_low: bytes[36],
        divisor_latch_high: bytes[37],
    }
}

/// Whether all of these bytes are zero, as those that a board leaves unused.
pub fn are_zero(bytes: &[u8]) -> bool
    ensures { result ≡ are_zero bytes.now }
{
    bytes.iter().all(|b| *b == 0)
}

fn chip_meets(bytes: &[u8; 64], at: usize) -> bool
    requires { at + 7 ≤ 64 }
    ensures { result ≡ all_met (chip_demands bytes.now at) }
{
    let once_ready = bytes[at + 1];
    let phase_fits = match phase_of(bytes[at]) {
        ChipPhase::Never => once_ready != 1,
        ChipPhase::AwaitsBase | ChipPhase::AwaitsCascade | ChipPhase::AwaitsMode => true,
        ChipPhase::Ready => once_ready == 1,
    };
    bytes[at] <= 4 && once_ready <= 1 && phase_fits && bytes[at + 5] % 8 == 0 && bytes[at + 6] <= 1
}

/// Whether a number is a period of the timer, 2 to 65,536, or 0 where it has none.
pub fn is_period_or_none(number: u32) -> bool
    ensures { result ≡ is_period_or_none number }
{
    number == 0 || 2 <= number && number <= 65536
}

fn timer_meets(bytes: &[u8; 64]) -> bool
    ensures { result ≡ all_met (timer_demands bytes.now) }
{
    let period = four_at(bytes, 16);
    let next_period = four_at(bytes, 20);
    let left = eight_at(bytes, 24);
    let (next_fits, left_fits) = if period == 0 {
        (next_period == 0, left == 0)
    } else {
        (true, 0 < left && left <= 8 * period as u64)
    };
    bytes[14] <= 2
        && (bytes[14] == 2 || bytes[15] == 0)
        && is_period_or_none(period)
        && is_period_or_none(next_period)
        && next_fits
        && left_fits
}

fn port_meets(bytes: &[u8; 64]) -> bool
    ensures { result ≡ all_met (port_demands bytes.now) }
{
    if bytes[32] > 1 || bytes[34] >= 16 || bytes[38] > 16 {
        return false;
    }
    let end = 39 + bytes[38] as usize;
    are_zero(&bytes[end..55]) && are_zero(&bytes[55..])
}

fn are_met(bytes: &[u8; 64]) -> bool
    ensures { result ≡ (all_met (chip_demands bytes.now 0) && all_met (chip_demands bytes.now 7)
        && stands_for_slave (controllers_at bytes.now) && all_met (timer_demands bytes.now) && all_met (port_demands bytes.now)) }
{
    chip_meets(bytes, 0)
        && chip_meets(bytes, 7)
        && controllers_at(bytes).stands_for_slave()
        && timer_meets(bytes)
        && port_meets(bytes)
}

/// Whether the bytes are those of a board.
pub fn has_form(bytes: &[u8; 64]) -> bool
    ensures form { result ≡ board_form bytes.now }
    ensures pics { result ≡ true → pair_fits (controllers_at bytes.now) ≡ true }
    ensures pit { result ≡ true → is_count (timer_at bytes.now).count ≡ true }
    ensures uart { result ≡ true → port_fits (settings_at bytes.now).modem_control (waiting_at bytes.now) ≡ true }
    ensures waiting { result ≡ true → slice_index bytes.now 38 ≤ 16 }
{
    are_met(bytes)
}
