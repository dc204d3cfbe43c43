use std::marker::Model;
use text_rows::PartTexts;

/// A part of a session's text as clauses see it, for laws alone: no value of it is made.
#[derive(Drop)]
pub struct SessionPart {
    count: u64,
}

impl Model for SessionPart {
    ghost use Rattle.std.specs.Prelude.{[]};
    ghost use Rattle.session_rules.specs.Parts.{Part, Header};

    ghost Value = { Part };

    ghost view = { λ p. Header [] p.count };
}

impl PartTexts for SessionPart {
    ghost use Rattle.session_rules.specs.Parts.{IsPart};

    ghost is_text = { IsPart };
}
