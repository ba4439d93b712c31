//! The effects that steps have on what a pass owes (`specs/Moves.antt`, here and of mb_segment).
use crate::rule::Effect;

pub struct HasWoken;

impl Effect for HasWoken {
    ghost use Rattle.mb_segment.specs.Moves.{has_woken};

    ghost of = { has_woken };
}

pub struct HasClosed;

impl Effect for HasClosed {
    ghost use Rattle.mb_segment.specs.Moves.{has_closed};

    ghost of = { has_closed };
}

pub struct Same;

impl Effect for Same {
    ghost use Rattle.mb_segment.specs.Moves.{same};

    ghost of = { same };
}

pub struct Looked;

impl Effect for Looked {
    ghost use Rattle.mb_segment.specs.Moves.{looked};

    ghost of = { looked };
}

pub struct HandsOn;

impl Effect for HandsOn {
    ghost use Rattle.mb_segment.specs.Moves.{hands_on};

    ghost of = { hands_on };
}

pub struct Enters;

impl Effect for Enters {
    ghost use Rattle.mb_segment.specs.Moves.{enters};

    ghost of = { enters };
}

pub struct Done;

impl Effect for Done {
    ghost use Rattle.mb_segment.specs.Moves.{done};

    ghost of = { done };
}

pub struct FallsAsleep;

impl Effect for FallsAsleep {
    ghost use Rattle.mb_segment.specs.Moves.{falls_asleep};

    ghost of = { falls_asleep };
}

pub struct WakesUp;

impl Effect for WakesUp {
    ghost use Rattle.mb_segment.specs.Moves.{wakes_up};

    ghost of = { wakes_up };
}

pub struct GivesUp;

impl Effect for GivesUp {
    ghost use Rattle.mb_segment.specs.Moves.{gives_up};

    ghost of = { gives_up };
}

pub struct GoesUnseen;

impl Effect for GoesUnseen {
    ghost use Rattle.mb_segment.specs.Moves.{goes_unseen};

    ghost of = { goes_unseen };
}

pub struct Leaves;

impl Effect for Leaves {
    ghost use Rattle.mb_segment.specs.Moves.{leaves};

    ghost of = { leaves };
}

pub struct LeavesWithToken;

impl Effect for LeavesWithToken {
    ghost use Rattle.mb_segment.specs.Moves.{leaves_with_token};

    ghost of = { leaves_with_token };
}

pub struct Dozes;

impl Effect for Dozes {
    ghost use Rattle.mb_ring.specs.Moves.{dozes};

    ghost of = { dozes };
}

pub struct DoneWithAll;

impl Effect for DoneWithAll {
    ghost use Rattle.mb_ring.specs.Moves.{done_with_all};

    ghost of = { done_with_all };
}
