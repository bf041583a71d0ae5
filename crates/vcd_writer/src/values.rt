// A command by its three numbers, and what its variables hold. What isn't used is 0.
ghost use Rattle.std.specs.Prelude.{◌+◌, ◌*◌, ◌≤◌, ◌≡◌, length};
ghost use Rattle.layout.specs.Bytes.{command_size};
ghost use Rattle.recording.specs.Stamps.{uses_core, uses_priority};
ghost use Rattle.vcd_writer.specs.Lines.{numbers_at, core_of, arg_of, prio_of, fits_of};

use layout::COMMAND_SIZE;

// The commands that use core and prio, by their own numbers.
const SET_SOURCE_PRIORITY: u8 = 0;

const SET_CORE_PRIORITY: u8 = 3;

const CLAIM: u8 = 5;

// How many values the bits of core, arg and prio hold.
const CORE_VALUES: u16 = 1 << 5;

const ARG_VALUES: u16 = 1 << 8;

const PRIO_VALUES: u16 = 1 << 9;

// The numbers of a command: its own, the id or the core, and the priority.
#[derive(Clone, Copy)]
pub struct Numbers {
    pub number: u8,
    pub target: u16,
    pub level: u16,
}

impl Numbers {
    // Those in the bytes of the k-th command of a list.
    pub fn at(list: &[u8], k: usize) -> Numbers
        requires { command_size * k + command_size ≤ length list.now }
        ensures { result ≡ numbers_at list.now k }
    {
        let at = COMMAND_SIZE * k;
        Numbers {
            number: list[at],
            target: decoding::word_at(list, at + 1),
            level: decoding::word_at(list, at + 3),
        }
    }

    fn uses_core(self) -> bool
        ensures { result ≡ uses_core self.number }
    {
        matches!(self.number, SET_CORE_PRIORITY | CLAIM)
    }

    fn uses_priority(self) -> bool
        ensures { result ≡ uses_priority self.number }
    {
        matches!(self.number, SET_SOURCE_PRIORITY | SET_CORE_PRIORITY)
    }

    pub fn core(self) -> u16
        ensures { result ≡ core_of self }
    {
        if self.uses_core() { self.target } else { 0 }
    }

    pub fn arg(self) -> u16
        ensures { result ≡ arg_of self }
    {
        if self.uses_core() { 0 } else { self.target }
    }

    pub fn prio(self) -> u16
        ensures { result ≡ prio_of self }
    {
        if self.uses_priority() { self.level } else { 0 }
    }

    // Whether each value fits its variable.
    pub fn fit(self) -> bool
        ensures { result ≡ fits_of self }
    {
        self.core() < CORE_VALUES && self.arg() < ARG_VALUES && self.prio() < PRIO_VALUES
    }
}
