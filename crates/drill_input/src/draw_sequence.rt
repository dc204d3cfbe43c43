ghost use Rattle.std.specs.Prelude.{◌≡◌};
ghost use Rattle.drill_input.specs.Draws.{draw, drawn, next_draw_state, draw_state_after};

use crate::trace_draws::TraceDraws;
use std::marker::Model;

/// A linear congruential sequence, seen as its state.
#[derive(Debug, Drop)]
pub(crate) struct DrawSequence {
    state: u32,
}

impl Model for DrawSequence {
    ghost use Rattle.std.specs.Prelude.{ℕ};

    ghost Value = { ℕ };

    ghost view = { λ a. a.state };
}

impl DrawSequence {
    /// Makes the sequence that starts from a number.
    pub(crate) fn new(number: u32) -> DrawSequence
        ensures { result ≡ number }
    {
        DrawSequence { state: number }
    }

    /// Draws a number below 1000.
    pub(crate) fn draw(&mut self) -> u32
        ensures state { self.new ≡ next_draw_state self.old }
        ensures value { result ≡ drawn self.new }
    {
        let state = (u64::from(self.state) * 1_103_515_245 + 12_345) % 2_147_483_648;
        self.state = state as u32;
        self.state / 65_536 % 1_000
    }

    /// Draws the five numbers of a trace.
    pub(crate) fn draw_trace(&mut self) -> TraceDraws
        ensures state { self.new ≡ draw_state_after self.old 5 }
        ensures d1 { result.d1 ≡ draw self.old 0 }
        ensures d2 { result.d2 ≡ draw self.old 1 }
        ensures d3 { result.d3 ≡ draw self.old 2 }
        ensures d4 { result.d4 ≡ draw self.old 3 }
        ensures d5 { result.d5 ≡ draw self.old 4 }
    {
        let d1 = self.draw();
        let d2 = self.draw();
        let d3 = self.draw();
        let d4 = self.draw();
        let d5 = self.draw();
        TraceDraws { d1, d2, d3, d4, d5 }
    }
}
