//! A board as 64 bytes.

ghost use Rattle.std.specs.Prelude.{◌≡◌, ◌+◌, ◌≤◌, true, length};
ghost use Rattle.std.specs.Int.{to_le_bytes, w32, w64};
ghost use Rattle.uart16550.specs.Registers.{Registers, room};
ghost use Rattle.uart16550.specs.States.{registers_of};
ghost use Rattle.board.specs.Saved.{phase_number, selected_number, phase_numbers, count_numbers, chip_bytes, timer_bytes, set_bytes, saved};
ghost use Rattle.board.specs.Restored.{board_at};
ghost use Rattle.board.specs.Form.{board_form, restored};

use crate::devices::Board;
use crate::restored::{controllers_at, has_form, settings_at, timer_at};
use pic8259::{Chip, Phase as ChipPhase, Pics, Selected};
use pit8254::{Count, Phase as TimerPhase, Pit, Timer};
use uart16550::{Settings, Uart};

impl Board {
    /// The whole state of the board.
    pub fn save(&self) -> [u8; 64]
        ensures bytes { result ≡ saved self.now }
        ensures form { board_form result ≡ true }
        ensures back { board_at result ≡ self.now }
    {
        let pair = self.pics.pair();
        let timer = self.pit.timer();
        let settings = self.uart.settings();
        let kept = self.uart.kept();
        let mut bytes = [0; 64];
        bytes[0..7].copy_from_slice(&chip_bytes(&pair.master));
        bytes[7..14].copy_from_slice(&chip_bytes(&pair.slave));
        bytes[14..32].copy_from_slice(&timer_bytes(&timer));
        bytes[32..39].copy_from_slice(&set_bytes(&settings, kept));
        bytes[39..39 + kept.len()].copy_from_slice(kept);
        bytes
    }

    /// The board that was saved as these bytes. None exactly where they are not those of a board.
    #[tactic(auto, unfolding(crate::specs::Restored::board_at))]
    pub fn restore(bytes: &[u8; 64]) -> Option<Board>
        ensures { result ≡ restored bytes.now }
    {
        if !has_form(bytes) {
            return None;
        }
        let pics = Pics::from_pair(controllers_at(bytes))?;
        let pit = Pit::from_timer(timer_at(bytes))?;
        let end = 39 + bytes[38] as usize;
        let uart = Uart::from_settings(settings_at(bytes), &bytes[39..end])?;
        Some(Board { pics, pit, uart })
    }
}

fn phase_number(phase: ChipPhase) -> u8
    ensures { result ≡ phase_number phase }
{
    match phase {
        ChipPhase::Never => 0,
        ChipPhase::AwaitsBase => 1,
        ChipPhase::AwaitsCascade => 2,
        ChipPhase::AwaitsMode => 3,
        ChipPhase::Ready => 4,
    }
}

fn selected_number(selected: Selected) -> u8
    ensures { result ≡ selected_number selected }
{
    match selected {
        Selected::InterruptRequest => 0,
        Selected::InService => 1,
    }
}

fn chip_bytes(chip: &Chip) -> [u8; 7]
    ensures { result ≡ chip_bytes chip.now }
{
    [
        phase_number(chip.phase),
        chip.once_ready as u8,
        chip.interrupt_request,
        chip.in_service,
        chip.interrupt_mask,
        chip.base,
        selected_number(chip.selected),
    ]
}

/// The timer's phase, and the low byte that it has.
fn phase_numbers(phase: TimerPhase) -> (u8, u8)
    ensures { result ≡ phase_numbers phase }
{
    match phase {
        TimerPhase::AwaitsControlWord => (0, 0),
        TimerPhase::AwaitsLow => (1, 0),
        TimerPhase::AwaitsHigh(low) => (2, low),
    }
}

/// The period, the next one and the steps that are left, 0 for none.
fn count_numbers(count: Option<Count>) -> (u32, u32, u64)
    ensures { result ≡ count_numbers count }
{
    match count {
        None => (0, 0, 0),
        Some(count) => (count.period, count.next_period.unwrap_or(0), count.left),
    }
}

fn timer_bytes(timer: &Timer) -> [u8; 18]
    ensures { result ≡ timer_bytes timer.now }
{
    let (phase, low) = phase_numbers(timer.phase);
    let (period, next_period, left) = count_numbers(timer.count);
    let p = period.to_le_bytes();
    let n = next_period.to_le_bytes();
    let l = left.to_le_bytes();
    [
        phase, low, p[0], p[1], p[2], p[3], n[0], n[1], n[2], n[3], l[0], l[1], l[2], l[3], l[4],
        l[5], l[6], l[7],
    ]
}

fn set_bytes(settings: &Settings, kept: &[u8]) -> [u8; 7]
    requires { length kept.now ≤ room }
    ensures { result ≡ set_bytes (registers_of settings.now kept.now) }
{
    [
        settings.interrupt_enable as u8,
        settings.line_control,
        settings.modem_control,
        settings.scratch,
        settings.divisor_latch_low,
        settings.divisor_latch_high,
        kept.len() as u8,
    ]
}
