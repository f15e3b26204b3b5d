// A pair of vectors: the first has stood for all time before 0, the second is applied at time 0.
ghost use Rattle.std.specs.Prelude.{◌≡◌, vec_len, length};

use crate::Items;
use std::marker::Model;

/// A pair of vectors of one length, with one bit per source in the order of the sources.
#[derive(Drop)]
pub struct Pair {
    first: Items<bool>,
    second: Items<bool>,
}

impl Model for Pair {
    ghost use Rattle.std.specs.Prelude.{◌≡◌, length};
    ghost use Rattle.pd_base.specs.Pair.{Vectors};

    ghost Value = { Vectors };

    ghost view = { λ p. record { first = p.first; second = p.second } };

    ghost invariant = { λ p. length p.first ≡ length p.second };
}

impl Pair {
    /// A pair of two vectors of one length. Takes no memory.
    pub fn new(first: Vec<bool>, second: Vec<bool>) -> Pair
        requires { vec_len first ≡ vec_len second }
        ensures first { result.first ≡ first.items }
        ensures second { result.second ≡ second.items }
    {
        Pair {
            first: Items::new(first),
            second: Items::new(second),
        }
    }

    /// The vector before time 0.
    pub fn first(&self) -> &[bool]
        ensures bits { result.now ≡ self.now.first }
        ensures lengths { length self.now.first ≡ length self.now.second }
    {
        self.first.as_slice()
    }

    /// The vector from time 0 on.
    pub fn second(&self) -> &[bool]
        ensures bits { result.now ≡ self.now.second }
        ensures lengths { length self.now.first ≡ length self.now.second }
    {
        self.second.as_slice()
    }
}
