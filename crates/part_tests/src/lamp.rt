//! A small server of lines: a lamp that lines turn on and off and look at.

ghost use Rattle.std.specs.Prelude.{◌≡◌, Bool, false};
ghost use Rattle.part_tests.specs.Lamps.{IsCalm, effect_of, lamp_below, lamp_protocol, light_of};
ghost use Rattle.part_tests.specs.LampLaws.{lamp_calm, lamp_less, lamp_limited, lamp_long, lamp_more, lamp_none, lamp_runs, lamp_still};

use line_loop::{Effect, LineServer};
use request_codec::{put, write_text};
use rio_base::{Failed, Sink, Stopped};
use std::alloc::{AllocError, Global};

/// What a line may ask for.
#[derive(Debug, Drop, PartialEq, Eq)]
pub enum Switch {
    /// Turns the lamp on, or off where it is on.
    Turn,
    /// Asks whether it is on.
    Look,
    /// Stops the lamp's machine.
    Halt,
}

/// What it is answered.
#[derive(Debug, Drop, PartialEq, Eq)]
pub enum Light {
    /// The lamp is on now.
    On,
    /// It is off now.
    Off,
    /// The line was no request.
    Unknown,
}

/// A lamp, whose machine may be stopped.
#[derive(Drop)]
pub struct Lamp {
    on: bool,
    stopped: bool,
}

impl Lamp {
    /// A lamp that is off.
    pub fn new() -> Lamp
        ensures on { result.on ≡ false }
        ensures stopped { result.stopped ≡ false }
    {
        Lamp {
            on: false,
            stopped: false,
        }
    }

    /// Whether it is on.
    fn told(&self) -> Light
        ensures { result ≡ light_of self.now.on }
    {
        if self.on {
            return Light::On;
        }
        Light::Off
    }
}

impl LineServer for Lamp {
    type Request = Switch;

    type Reply = Light;

    type Spare = ();

    ghost State = { Bool };

    ghost protocol = { lamp_protocol };

    ghost does = { effect_of };

    ghost calm = { IsCalm };

    ghost sound = { λ _. Unit {0} };

    ghost holds = { λ x s. (x.stopped ≡ false) × (s ≡ x.on) };

    ghost stands = { λ x s. s ≡ x.on };

    ghost health = { λ x. record { faults = 0; stopped = x.stopped } };

    ghost below = { λ _. lamp_below };

    ghost long = { lamp_long };

    ghost goes_none = { lamp_none };

    ghost goes_more = { lamp_more };

    ghost goes_less = { lamp_less };

    ghost still = { lamp_still };

    ghost stays_calm = { lamp_calm };

    ghost runs_on = { lamp_runs };

    ghost limited = { λ x most is. lamp_limited most is };

    fn spare(_alloc: Global) {}

    fn parse(line: &[u8], _spare: &mut ()) -> Result<Option<Switch>, AllocError> {
        match line {
            b"turn" => Ok(Some(Switch::Turn)),
            b"look" => Ok(Some(Switch::Look)),
            b"halt" => Ok(Some(Switch::Halt)),
            _ => Ok(None),
        }
    }

    fn keep(_request: Switch, _spare: &mut ()) {}

    fn effect_of(request: &Switch) -> Effect {
        match request {
            Switch::Turn => Effect::Changes,
            Switch::Look => Effect::Nothing,
            Switch::Halt => Effect::Changes,
        }
    }

    fn answer(&mut self, _alloc: Global, request: &Switch) -> Result<Light, Stopped> {
        match request {
            Switch::Turn => {
                self.on = !self.on;
                Ok(self.told())
            }
            Switch::Look => Ok(self.told()),
            Switch::Halt => {
                self.stopped = true;
                Err(Stopped)
            }
        }
    }

    fn refusal() -> Light {
        Light::Unknown
    }

    fn write_reply<K: Sink>(reply: &Light, _room: &mut [u8], sink: &mut K) -> Result<(), Failed> {
        match reply {
            Light::On => write_text(b"on\n", sink),
            Light::Off => write_text(b"off\n", sink),
            Light::Unknown => write_text(b"?\n", sink),
        }
    }

    fn put_reply<K: Sink>(
        reply: &Light,
        room: &mut [u8],
        held: usize,
        sink: &mut K,
    ) -> Result<usize, Failed> {
        match reply {
            Light::On => put(b"on\n", room, held, sink),
            Light::Off => put(b"off\n", room, held, sink),
            Light::Unknown => put(b"?\n", room, held, sink),
        }
    }
}
