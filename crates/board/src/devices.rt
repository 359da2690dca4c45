//! The board: its devices, what reaches them, their ports and their interrupts.

ghost use Rattle.std.specs.Prelude.{◌≡◌, ◌<◌, false, true, not, ◌&&◌, Some, IsSome};
ghost use Rattle.board.specs.ScriptForm.{event_fits, is_script};
ghost use Rattle.board.specs.Boards.{at_reset, serial_line, edged, with_uart, happened, given, vector, acknowledged, with_timer_edge};
ghost use Rattle.board.specs.Quiet.{board_steps, comes_within};
ghost use Rattle.ia32_types.specs.Firsts.{IsFirst};
ghost use Rattle.uart16550.specs.Ports.{written as serial_written, interrupt_line};
ghost use Rattle.board.specs.PortBytes.{IsByte};
ghost use Rattle.board.specs.Ports.{port_read, port_written};

use crate::ports::{is_pic_port, is_pit_port, is_uart_port, reaches_listed};
use crate::script::{Event, Script, earlier, events_from, steps_to_event};
use ia32_types::Did;
use pic8259::Pics;
use pit8254::Pit;
use uart16550::Uart;

/// The interrupt line of the timer.
const TIMER_LINE: u8 = 0;

/// The interrupt line of the serial port.
const SERIAL_LINE: u8 = 4;

/// What a read of a port gives.
#[derive(Clone, Copy, PartialEq, Eq)]
pub enum PortRead {
    /// 8 or 32 bits, as the read is wide.
    Value(u32),
    /// The board doesn't serve this read, and nothing changed.
    Stop,
}

/// The interrupt controllers, the timer and the serial port.
#[derive(Drop)]
pub struct Board {
    pub(crate) pics: Pics,
    pub(crate) pit: Pit,
    pub(crate) uart: Uart,
}

impl Board {
    /// The board before anything was written or came.
    pub fn new() -> Board
        ensures { result ≡ at_reset }
    {
        Board {
            pics: Pics::new(),
            pit: Pit::new(),
            uart: Uart::new(),
        }
    }

    /// An event of the script.
    #[tactic(auto, unfolding(crate::specs::Boards::with_uart))]
    fn happen(&mut self, event: Event)
        requires { event_fits event ≡ true }
        ensures { self.new ≡ happened self.old event }
    {
        match event {
            Event::Rx(byte) => {
                let asked_before = self.uart.line();
                self.uart.receive(byte);
                self.follow_serial_line(asked_before);
            }
            Event::Line(line) => self.pics.edge(line),
        }
    }

    /// Gives the devices the events of a step, in the script's order.
    #[inline(always)]
    pub fn begin(&mut self, script: &Script, step: u64)
        requires { is_script script.now.list ≡ true }
        ensures { self.new ≡ given self.old script.now.list step }
    {
        let rest = events_from(script.list.as_slice(), step);
        for (at, event) in rest {
            if *at != step {
                return;
            }
            self.happen(*event);
        }
    }

    /// The least number of steps after which an edge of the timer or an event of the script can come. It is asked
    /// after the events of this step were given, so it counts only events of later steps. None where neither will
    /// come by itself.
    #[tactic(auto, unfolding(crate::specs::Quiet::comes_within), using(crate::proofs::Searches::first_of_both))]
    pub fn next_event(&self, script: &Script, step: u64) -> Option<u64>
        requires { is_script script.now.list ≡ true }
        ensures { IsFirst (comes_within self.now script.now.list step) result }
    {
        earlier(
            self.pit.left(),
            steps_to_event(script.list.as_slice(), step),
        )
    }

    /// Makes k single steps at once.
    #[tactic(auto, unfolding(crate::specs::Boards::edged), using(crate::proofs::Steps::steps_are))]
    pub fn advance(&mut self, k: u64)
        ensures { self.new ≡ board_steps k self.old }
    {
        if self.pit.pass(k) {
            self.pics.edge(TIMER_LINE);
        }
    }

    /// A read of a port of 8 or, where it is wide, 32 bits. A port that no device has reads all ones.
    #[tactic(auto, unfolding(crate::specs::Ports::port_read))]
    pub fn port_in(&mut self, port: u16, wide: bool) -> PortRead
        ensures read { port_read self.old port wide ≡ (result, self.new) }
        ensures stopped { result ≡ PortRead.Stop → self.new ≡ self.old }
        ensures byte { wide ≡ false → IsByte result }
    {
        let at = port as u32;
        if wide {
            if reaches_listed(at) {
                return PortRead::Stop;
            }
            return PortRead::Value(0xFFFFFFFF);
        }
        if is_pic_port(at) {
            return PortRead::Value(self.pics.read(port) as u32);
        }
        if at == 0x40 {
            return PortRead::Stop;
        }
        if is_uart_port(at) {
            return PortRead::Value(self.uart.read(port) as u32);
        }
        PortRead::Value(0xFF)
    }

    /// A write to a port of 8 bits, the value's low byte, or, where it is wide, 32. A port that no device has ignores
    /// it.
    #[tactic(auto, unfolding(crate::specs::Ports::port_written))]
    pub fn port_out(&mut self, port: u16, wide: bool, value: u32) -> Did
        ensures written { port_written self.old port wide value ≡ (result, self.new) }
        ensures stopped { result ≡ Did.Stop → self.new ≡ self.old }
    {
        let at = port as u32;
        if wide {
            if reaches_listed(at) {
                return Did::Stop;
            }
            return Did::Done;
        }
        let byte = (value % 256) as u8;
        if is_pic_port(at) {
            return self.pics.write(port, byte);
        }
        if is_pit_port(at) {
            return self.pit.write(port, byte);
        }
        if is_uart_port(at) {
            return self.write_uart(port, byte);
        }
        Did::Done
    }

    /// A write to a port of the serial port, which may begin to ask for an interrupt by it.
    #[tactic(auto, unfolding(crate::specs::Boards::with_uart))]
    fn write_uart(&mut self, port: u16, v: u8) -> Did
        ensures did { (serial_written self.old.uart port v).0 ≡ result }
        ensures stopped { result ≡ Did.Stop → self.new ≡ self.old }
        ensures board { self.new ≡ with_uart self.old (serial_written self.old.uart port v).1 }
    {
        let asked_before = self.uart.line();
        let did = self.uart.write(port, v);
        self.follow_serial_line(asked_before);
        did
    }

    /// Line 4 has an edge where the serial port begins to ask for an interrupt.
    #[tactic(auto, unfolding(crate::specs::Boards::edged))]
    fn follow_serial_line(&mut self, asked_before: bool)
        ensures { self.new ≡ record self.old { pics = edged self.old.pics serial_line (interrupt_line self.old.uart && not asked_before) } }
    {
        if self.uart.line() && !asked_before {
            self.pics.edge(SERIAL_LINE);
        }
    }

    /// The vector that would be delivered.
    #[tactic(auto, unfolding(crate::specs::Boards::vector))]
    pub fn pending(&self) -> Option<u8>
        ensures { result ≡ vector self.now }
    {
        self.pics.pending()
    }

    /// The vector that would be delivered after an edge of the timer.
    #[tactic(auto, unfolding(crate::specs::Boards::vector, crate::specs::Boards::edged))]
    pub fn pending_after_edge(&self) -> Option<u8>
        ensures { result ≡ vector (with_timer_edge self.now) }
    {
        self.pics.pending_after(TIMER_LINE)
    }

    /// Acknowledges the interrupt that is pending, and gives its vector.
    #[tactic(auto, unfolding(crate::specs::Boards::vector, crate::specs::Boards::acknowledged))]
    pub fn acknowledge(&mut self) -> u8
        requires { IsSome (vector self.old) }
        ensures taken { vector self.old ≡ Some result }
        ensures after { self.new ≡ acknowledged self.old }
    {
        self.pics.acknowledge()
    }
}
