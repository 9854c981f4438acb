//! Outcomes: a status, and the bytes that are printed under it.
use crate::status::Status;
use std::marker::Model;

/// A status, and the bytes that are printed under it. It is no fault's status, and not that of want of
/// memory: these print nothing of their own.
#[derive(Debug, Drop)]
pub(crate) struct Outcome {
    pub(crate) status: Status,
    pub(crate) text: Vec<u8>,
}

impl Model for Outcome {
    ghost use Rattle.vp_cmd.specs.Outcomes as outcomes;
    ghost use Rattle.vp_cmd.specs.Printed.{IsPrinted};

    ghost Value = { outcomes.Outcome };

    ghost view = { λ o. record { status = o.status; text = o.text.items } };

    ghost invariant = { λ o. IsPrinted o.status };
}
