//! The generator, and its draws.

ghost use Rattle.std.specs.Prelude.{◌≡◌, ◌<◌, IfErr, IfOk};
ghost use Rattle.rio_requests.specs.Requests.{IsRequest};
ghost use Rattle.work_gen.specs.Draws.{boot, draw};
ghost use Rattle.work_gen.specs.Requests.{request};

use crate::boot_draw::{BootDraw, drawn_boot};
use crate::requests::drawn_request;
use rio_requests::Request;
use std::alloc::{AllocError, Global};
use std::marker::Model;

/// A draw multiplies the number by this and adds `INCREMENT`, and keeps the lowest 31 bits.
const MULTIPLIER: u64 = 1_103_515_245;

const INCREMENT: u64 = 12_345;

const MODULUS: u64 = 2_147_483_648;

/// What a draw gives is the number without its lowest 16 bits.
const LOW: u64 = 65_536;

/// Draws numbers, requests and stops. Contracts see it as the one number that it has.
#[derive(Debug, Drop)]
pub struct Gen {
    number: u32,
}

impl Model for Gen {
    ghost use Rattle.std.specs.Prelude.{ℕ};

    ghost Value = { ℕ };

    ghost view = { λ g. g.number };
}

impl Gen {
    /// A generator that draws from this seed on.
    pub fn new(seed: u32) -> Gen
        ensures { result ≡ seed }
    {
        Gen { number: seed }
    }

    /// The next number that is drawn: 0 to 32,767.
    pub fn draw(&mut self) -> u32
        ensures drawn { draw self.old ≡ (self.new, result) }
        ensures small { result < 32768 }
    {
        let number = (MULTIPLIER * u64::from(self.number) + INCREMENT) % MODULUS;
        self.number = number as u32;
        (number / LOW) as u32
    }

    /// The next request that is drawn. Where there is no memory for it, the generator is as it was before.
    pub fn next_request(&mut self, alloc: Global) -> Result<Request, AllocError>
        ensures drawn { IfOk result (λ r. request self.old ≡ (self.new, r)) }
        ensures form { IfOk result (λ r. IsRequest r) }
        ensures unchanged { IfErr result (λ e. self.new ≡ self.old) }
    {
        let mut ahead = Gen {
            number: self.number,
        };
        let request = drawn_request(&mut ahead, alloc)?;
        self.number = ahead.number;
        Ok(request)
    }

    /// How the next boot ends, where it is not the last one of its drill.
    pub fn next_boot(&mut self) -> BootDraw
        ensures { boot self.old ≡ (self.new, result) }
    {
        drawn_boot(self)
    }
}
