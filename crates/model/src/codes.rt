// What one type is as another: the numbers that classes, deliverers, verdicts, rules and refusals go in and out as, the class of a
// deliverer, the rule that a draw or a room names, the verdict of a rule, a fingerprint as it is read, and clock milliseconds in seconds.
// Numbers go by `match` and not by `as`: they are the C interface's, whatever the order of the variants.
ghost use Rattle.std.specs.Prelude.{◌≡◌};
ghost use Rattle.model.specs.Answer.{refusal_number};
ghost use Rattle.model.specs.Class.{class_number, class_fits, class_at, class_of, deliverer_fits, deliverer_of};
ghost use Rattle.model.specs.Codes.{verdict_number, verdict_fits, verdict_of, reason_number, reason_verdict, draw_reason, room_reason};
ghost use Rattle.model.specs.Generation.{as_read};
ghost use Rattle.model.specs.Listed.{listed};
ghost use Rattle.model.specs.Numbers.{ceil, cap32};

use crate::{
    Class, Deliverer, DelivererCode, Draw, Fingerprint, Judged, Reason, Refusal, Room, Second,
    Verdict,
};

// The number that a host is told.
impl From<Refusal> for u64 {
    ghost from_gives = { λ refusal number. number ≡ refusal_number refusal };

    fn from(refusal: Refusal) -> u64 {
        match refusal {
            Refusal::Unfit => 1,
            Refusal::TooFewWords => 2,
            Refusal::UnsoundWords => 3,
            Refusal::NoSuchRegister => 4,
            Refusal::OutputTooShort => 5,
            Refusal::Pending => 6,
            Refusal::CutShort => 7,
            Refusal::ViewTooShort => 8,
        }
    }
}

impl From<Class> for u64 {
    ghost from_gives = { λ class number. number ≡ class_number class };

    #[tactic(auto, unfolding(crate::specs::Class::class_number))]
    fn from(class: Class) -> u64 {
        match class {
            Class::Feeders => 0,
            Class::Peers => 1,
            Class::Own => 2,
        }
    }
}

impl TryFrom<u64> for Class {
    type Error = Refusal;

    ghost try_from_gives = { λ number class. class ≡ listed (class_fits number) (class_at number) };

    #[tactic(auto, unfolding(crate::specs::Class::class_at))]
    fn try_from(number: u64) -> Result<Class, Refusal> {
        match number {
            0 => Ok(Class::Feeders),
            1 => Ok(Class::Peers),
            2 => Ok(Class::Own),
            _ => Err(Refusal::Unfit),
        }
    }
}

impl From<Deliverer> for Class {
    ghost from_gives = { λ who class. class ≡ class_of who };

    #[tactic(auto, unfolding(crate::specs::Class::class_of))]
    fn from(who: Deliverer) -> Class {
        match who {
            Deliverer::Feeder(_) => Class::Feeders,
            Deliverer::Peer(_) => Class::Peers,
            Deliverer::Relay => Class::Own,
            Deliverer::Restored(class) => class,
        }
    }
}

impl TryFrom<DelivererCode> for Deliverer {
    type Error = Refusal;

    ghost try_from_gives = { λ code who. who ≡ listed (deliverer_fits code.kind code.number) (deliverer_of code.kind code.number) };

    #[tactic(auto, unfolding(crate::specs::Class::deliverer_fits, crate::specs::Class::deliverer_of))]
    fn try_from(code: DelivererCode) -> Result<Deliverer, Refusal> {
        match code.kind {
            DelivererCode::FEEDER => Ok(Deliverer::Feeder(code.number)),
            DelivererCode::PEER => Ok(Deliverer::Peer(code.number)),
            DelivererCode::RELAY => Ok(Deliverer::Relay),
            DelivererCode::RESTORED => Ok(Deliverer::Restored(Class::try_from(code.number)?)),
            _ => Err(Refusal::Unfit),
        }
    }
}

impl From<Verdict> for u64 {
    ghost from_gives = { λ verdict number. number ≡ verdict_number verdict };

    #[tactic(auto, unfolding(crate::specs::Codes::verdict_number))]
    fn from(verdict: Verdict) -> u64 {
        match verdict {
            Verdict::New => 0,
            Verdict::Duplicate => 1,
            Verdict::Late => 2,
            Verdict::Ahead => 3,
            Verdict::Full => 4,
            Verdict::Unjudged => 5,
        }
    }
}

impl TryFrom<u64> for Verdict {
    type Error = Refusal;

    ghost try_from_gives = { λ number verdict. verdict ≡ listed (verdict_fits number) (verdict_of number) };

    #[tactic(auto, unfolding(crate::specs::Codes::verdict_of))]
    fn try_from(number: u64) -> Result<Verdict, Refusal> {
        match number {
            0 => Ok(Verdict::New),
            1 => Ok(Verdict::Duplicate),
            2 => Ok(Verdict::Late),
            3 => Ok(Verdict::Ahead),
            4 => Ok(Verdict::Full),
            5 => Ok(Verdict::Unjudged),
            _ => Err(Refusal::Unfit),
        }
    }
}

// The number of a rule, in the order in which the rules are tried.
impl From<Reason> for u64 {
    ghost from_gives = { λ reason number. number ≡ reason_number reason };

    #[tactic(auto, unfolding(crate::specs::Codes::reason_number))]
    fn from(reason: Reason) -> u64 {
        match reason {
            Reason::Accepted => 0,
            Reason::Pending => 1,
            Reason::Flag => 2,
            Reason::Held(_) => 3,
            Reason::Floor => 4,
            Reason::Behind => 5,
            Reason::Ahead => 6,
            Reason::Closed => 7,
            Reason::OwnShare => 8,
            Reason::ClassLimit => 9,
            Reason::EqualPart => 10,
            Reason::TwiceLimit => 11,
            Reason::Places => 12,
            Reason::Pairs => 13,
            Reason::Position => 14,
            Reason::Slots => 15,
        }
    }
}

// The rule that a draw's refusal names; accepted where it was granted.
impl From<Draw> for Reason {
    ghost from_gives = { λ draw reason. reason ≡ draw_reason draw };

    fn from(draw: Draw) -> Reason {
        match draw {
            Draw::Granted => Reason::Accepted,
            Draw::Closed => Reason::Closed,
            Draw::OwnShare => Reason::OwnShare,
            Draw::ClassLimit => Reason::ClassLimit,
            Draw::EqualPart => Reason::EqualPart,
            Draw::TwiceLimit => Reason::TwiceLimit,
            Draw::Places => Reason::Places,
            Draw::Pairs => Reason::Pairs,
        }
    }
}

// The rule by the room that there is.
impl From<Room> for Reason {
    ghost from_gives = { λ room reason. reason ≡ room_reason room };

    fn from(room: Room) -> Reason {
        match room {
            Room::At(_) => Reason::Accepted,
            Room::Collides => Reason::Position,
            Room::Full => Reason::Slots,
        }
    }
}

// The verdict that take gives by a rule.
impl From<Reason> for Verdict {
    ghost from_gives = { λ reason verdict. verdict ≡ reason_verdict reason };

    #[tactic(auto, unfolding(crate::specs::Codes::reason_verdict))]
    fn from(reason: Reason) -> Verdict {
        match reason {
            Reason::Accepted => Verdict::New,
            Reason::Pending | Reason::Flag => Verdict::Unjudged,
            Reason::Held(_) => Verdict::Duplicate,
            Reason::Floor | Reason::Behind | Reason::Ahead | Reason::Position => Verdict::Late,
            Reason::Closed
            | Reason::OwnShare
            | Reason::ClassLimit
            | Reason::EqualPart
            | Reason::TwiceLimit
            | Reason::Places
            | Reason::Pairs
            | Reason::Slots => Verdict::Full,
        }
    }
}

// A fingerprint as it is read: 0 is read as 1.
impl From<u64> for Fingerprint {
    ghost from_gives = { λ fp print. print.word ≡ as_read fp };

    #[tactic(auto, unfolding(crate::specs::Generation::as_read))]
    fn from(fp: u64) -> Fingerprint {
        Fingerprint { word: fp.max(1) }
    }
}

// Milliseconds in seconds, rounded up, and the last second where there are more.
impl From<Judged> for Second {
    ghost from_gives = { λ ms second. second.0 ≡ cap32 (ceil ms.0 1_000) };

    #[tactic(auto, using(crate::proofs::Rounding::seconds_up))]
    fn from(ms: Judged) -> Second {
        Second(ms.0.div_ceil(1000).min(Second::LAST))
    }
}
