//! The segment, and what always holds of it.
use crate::contenders::Contender;
use std::marker::Model;

pub mod calls;
pub mod questions;
pub mod setup;

/// One segment: at most 16 contenders with different levels, and the arbitration request inhibit.
/// In contracts it is a `Bus`.
#[derive(Drop)]
pub struct Segment {
    number: u8,
    contenders: Vec<Contender>,
    inhibit: bool,
}

impl Model for Segment {
    ghost use Rattle.std.specs.Prelude.{vec_items};
    ghost use Rattle.arbitration.specs.Rules.{Bus};
    ghost use Rattle.arbitration.specs.Sound.{Sound};

    ghost Value = { Bus };

    ghost view = { λ s. record { number = s.number; contenders = vec_items s.contenders; inhibit = s.inhibit } };

    ghost invariant = { λ s. Sound (vec_items s.contenders) s.inhibit };
}
