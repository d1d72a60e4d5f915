use std::marker::Model;

/// What a seat of the hub's table knows. Contracts use its model only; no value of it is made.
#[derive(Drop)]
pub struct View {
    nothing: (),
}

impl Model for View {
    ghost use Rattle.passes.specs.Known.{SeatView, nobody};

    ghost Value = { SeatView };

    ghost view = { λ _. nobody };
}
