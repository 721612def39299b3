//! How a thread puts out words.
ghost use Rattle.std.specs.Prelude.{◌≡◌, ◌<◌, ◌≤◌, true};
ghost use Rattle.xs_base.specs.Ids.{port_width};
ghost use Rattle.xs_model.specs.PortActions.{turned_out, filled, fill, put_bits, put_out, put_part, sync};
ghost use Rattle.single_port.specs.Asks.{answer_of, port_after};

use crate::answers::Answer;
use crate::port::Port;
use crate::settings::low_bits;
use crate::state::Condition;
use crate::transfer::TransferWord;
use xs_model::Wait;

impl Port {
    /// A word to go out at port `p`.
    pub(crate) fn put_out(&mut self, p: u8, word: u32) -> Answer
        requires { self.old.port.on ≡ true }
        ensures port { self.new ≡ record self.old { port = port_after self.old.port (put_out p word self.old.port) } }
        ensures answer { result ≡ answer_of (put_out p word self.old.port) }
    {
        self.put_bits(p, self.transfer_width, word)
    }

    /// A word to go out at port `p`, of which so many bits are to go out.
    pub(crate) fn put_part(&mut self, p: u8, bits: u32, word: u32) -> Answer
        requires on { self.old.port.on ≡ true }
        requires placed { self.old.width ≡ port_width p }
        ensures port { self.new ≡ record self.old { port = port_after self.old.port (put_part p bits word self.old.port) } }
        ensures answer { result ≡ answer_of (put_part p bits word self.old.port) }
    {
        if self.is_part(bits) {
            self.put_bits(p, bits, word)
        } else {
            Answer::bad()
        }
    }

    fn put_bits(&mut self, p: u8, bits: u32, word: u32) -> Answer
        requires on { self.old.port.on ≡ true }
        requires bits { bits ≤ self.old.port.transfer_width }
        ensures port { self.new ≡ record self.old { port = port_after self.old.port (put_bits p bits word self.old.port) } }
        ensures answer { result ≡ answer_of (put_bits p bits word self.old.port) }
    {
        if !self.output {
            self.turned_out();
        }
        self.fill(p, bits, word)
    }

    fn turned_out(&mut self)
        requires { self.old.port.on ≡ true }
        ensures { self.new ≡ record self.old { port = turned_out self.old.port } }
    {
        self.output = true;
        self.shift.clear();
        self.transfer = None;
        self.condition = Condition::None;
        self.held = false;
    }

    fn fill(&mut self, p: u8, bits: u32, word: u32) -> Answer
        requires { bits ≤ self.old.port.transfer_width }
        ensures port { self.new ≡ record self.old { port = port_after self.old.port (fill p bits word self.old.port) } }
        ensures answer { result ≡ answer_of (fill p bits word self.old.port) }
    {
        if self.transfer.is_some() {
            Answer::pause(Wait::PortEmpty { port: p }, None)
        } else {
            self.filled(bits, word);
            Answer::done()
        }
    }

    fn filled(&mut self, bits: u32, word: u32)
        requires { bits ≤ self.old.port.transfer_width }
        ensures { self.new ≡ record self.old { port = filled bits word self.old.port } }
    {
        let time = self.time;
        self.transfer = Some(TransferWord {
            value: low_bits(word, bits),
            bits,
            time,
        });
        self.time = None;
    }

    /// The wait until all went out at port `p`.
    pub(crate) fn sync(&mut self, p: u8) -> Answer
        requires { self.old.port.on ≡ true }
        ensures port { self.new ≡ record self.old { port = port_after self.old.port (sync p self.old.port) } }
        ensures answer { result ≡ answer_of (sync p self.old.port) }
    {
        if self.is_idle() {
            Answer::done()
        } else {
            Answer::pause(Wait::PortIdle { port: p }, None)
        }
    }
}
