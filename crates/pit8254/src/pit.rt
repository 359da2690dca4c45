//! Channel 0 of an 8254: writes, single steps and many at once. Intel 8254 data sheet: control word format, write
//! operations, mode 2 and mode 3.

ghost use Rattle.std.specs.Prelude.{◌≡◌, ◌+◌, ◌*◌, ◌<◌, ◌≤◌, true, Some, None, if◌then◌else◌};
ghost use Rattle.std.specs.Option.{ForSome};
ghost use Rattle.ia32_types.specs.Firsts.{IsFirst};
ghost use Rattle.ia32_types.specs.declared.stop.Did.TheVariants.{Stop};
ghost use Rattle.pit8254.specs.Timers.{at_reset, fresh, period_of, counting, control_word_written, count_written, written, timer_step, is_period};
ghost use Rattle.pit8254.specs.Edges.{after_steps, edge_within, left_in};
ghost use Rattle.pit8254.specs.Counts.{is_count, IsAfter};

use crate::timer::{Count, Phase, Timer};
use ia32_types::Did;
use std::marker::Model;

/// The timer.
#[derive(Drop)]
pub struct Pit {
    timer: Timer,
}

impl Model for Pit {
    ghost use Rattle.std.specs.Prelude.{◌≡◌, true};
    ghost use Rattle.pit8254.specs.declared.timer.Timer.{Timer};
    ghost use Rattle.pit8254.specs.Counts.{is_count};

    ghost Value = { Timer };

    ghost view = { λ p. p.timer };

    ghost invariant = { λ p. is_count p.timer.count ≡ true };
}

impl Pit {
    /// The timer before any control word.
    pub fn new() -> Pit
        ensures { result ≡ at_reset }
    {
        Pit {
            timer: Timer {
                phase: Phase::AwaitsControlWord,
                count: None,
            },
        }
    }

    /// What it awaits, and its counter.
    pub fn timer(&self) -> Timer
        ensures state { result ≡ self.now }
        ensures fits { is_count result.count ≡ true }
    {
        self.timer
    }

    /// The timer in this state. None where it has a period that is not 2 to 65,536, or a counter with no steps left or
    /// with more than its period has.
    pub fn from_timer(timer: Timer) -> Option<Pit>
        ensures { result ≡ (if is_count timer.count then Some timer else None) }
    {
        let fits = match timer.count {
            None => true,
            Some(count) => is_count(&count),
        };
        if fits { Some(Pit { timer }) } else { None }
    }

    /// A write to the count port 0x40 or the control port 0x43. Other ports are ignored. A byte that the board doesn't
    /// serve stops and changes nothing.
    #[tactic(auto, unfolding(crate::specs::Timers::written, crate::specs::Timers::control_word_written))]
    pub fn write(&mut self, port: u16, v: u8) -> Did
        ensures written { written self.old port v ≡ (result, self.new) }
        ensures stopped { result ≡ Stop → self.new ≡ self.old }
    {
        if port == 0x43 {
            if v == 0x34 || v == 0x36 {
                self.timer = Timer {
                    phase: Phase::AwaitsLow,
                    count: None,
                };
                return Did::Done;
            }
            return Did::Stop;
        }
        if port != 0x40 {
            return Did::Done;
        }
        match self.timer.phase {
            Phase::AwaitsControlWord => Did::Stop,
            Phase::AwaitsLow => {
                self.timer.phase = Phase::AwaitsHigh(v);
                Did::Done
            }
            Phase::AwaitsHigh(low) => {
                let period = period_of(low, v);
                if period == 1 {
                    return Did::Stop;
                }
                self.timer = Timer {
                    phase: Phase::AwaitsLow,
                    count: Some(counting(self.timer.count, period)),
                };
                Did::Done
            }
        }
    }

    /// The steps until the next edge. None exactly where no count is loaded.
    #[tactic(auto, using(crate::proofs::Runs::stays_within, crate::proofs::Runs::within_is))]
    pub fn left(&self) -> Option<u64>
        ensures value { result ≡ left_in self.now.count }
        ensures first { IsFirst (λ k. edge_within k self.now) result }
    {
        match self.timer.count {
            Some(count) => Some(count.left),
            None => None,
        }
    }

    /// Makes k steps, no more than up to the next edge. True where the last of them has an edge.
    pub fn advance(&mut self, k: u64) -> bool
        requires { ForSome (left_in self.old.count) (λ left. k ≤ left) }
        ensures after { self.new ≡ after_steps k self.old }
        ensures edge { result ≡ edge_within k self.old }
    {
        self.pass(k)
    }

    /// Makes k steps, however many, in one. True where one of them has an edge.
    #[tactic(auto, unfolding(crate::specs::Counts::IsAfter), using(crate::proofs::Runs::passing))]
    pub fn pass(&mut self, k: u64) -> bool
        ensures after { self.new ≡ after_steps k self.old }
        ensures edge { result ≡ edge_within k self.old }
    {
        match self.timer.count {
            None => false,
            Some(count) => {
                self.timer.count = Some(counted_down(count, k));
                count.left <= k
            }
        }
    }
}

fn is_period(period: u32) -> bool
    ensures { result ≡ is_period period }
{
    2 <= period && period <= 65536
}

/// Whether a counter can run so.
fn is_count(count: &Count) -> bool
    ensures { result ≡ is_count (Some count.now) }
{
    let next_fits = match count.next_period {
        None => true,
        Some(period) => is_period(period),
    };
    is_period(count.period) && next_fits && 0 < count.left && count.left <= 8 * count.period as u64
}

/// A counter that has counted down for k steps, and started anew at each 0.
fn counted_down(count: Count, k: u64) -> Count
    requires { is_count (Some count) ≡ true }
    ensures value { IsAfter k count result }
    ensures runs { is_count (Some result) ≡ true }
{
    if k < count.left {
        return Count {
            left: count.left - k,
            ..count
        };
    }
    let renewed = fresh(count.next_period.unwrap_or(count.period));
    Count {
        left: renewed.left - (k - count.left) % renewed.left,
        ..renewed
    }
}

/// A counter that starts anew with a period.
#[tactic(auto, unfolding(crate::specs::Timers::fresh))]
fn fresh(period: u32) -> Count
    requires { is_period period ≡ true }
    ensures value { result ≡ fresh period }
    ensures runs { is_count (Some result) ≡ true }
{
    Count {
        period,
        next_period: None,
        left: 8 * period as u64,
    }
}

/// A count of 0 means 65,536.
#[tactic(auto, unfolding(crate::specs::Timers::period_of))]
fn period_of(low: u8, high: u8) -> u32
    ensures value { result ≡ period_of low high }
    ensures some { 0 < result }
    ensures bound { result ≤ 65536 }
{
    let count = 256 * high as u32 + low as u32;
    if count == 0 { 65536 } else { count }
}

/// A count that runs takes the new period at its next edge, and a stopped one starts with it.
fn counting(count: Option<Count>, period: u32) -> Count
    requires period { is_period period ≡ true }
    requires runs { is_count count ≡ true }
    ensures value { result ≡ counting count period }
    ensures runs { is_count (Some result) ≡ true }
{
    match count {
        None => fresh(period),
        Some(count) => Count {
            next_period: Some(period),
            ..count
        },
    }
}
