//! Laws of the definitions that a session goes by. Each function does nothing: what it ensures is
//! the law.

ghost use Rattle.std.specs.Prelude.{◌≡◌, ◌≢◌, ◌↔◌, ℕ, List, [], ◌∷◌, ◌++◌};
ghost use Rattle.std.specs.List.{IsDistinct};
ghost use Rattle.munge_types.specs.History.{accepted};
ghost use Rattle.munge_types.specs.Pair.{pair_eq};
ghost use Rattle.munge_types.specs.declared.status.Status.TheVariants.{Success};
ghost use Rattle.cred_armor.specs.CredentialText.{AreSpaces};
ghost use Rattle.wire_msg.specs.declared.message.EncodeAsk.{EncodeAsk};
ghost use Rattle.wire_msg.specs.declared.message.Message.{Message};
ghost use Rattle.wire_msg.specs.declared.message.Message.TheVariants.{DecodeRequest};
ghost use Rattle.session_core.specs.Answering.{Answers, AnswersAsk, AnswersText, Outcome, Own, Run};
ghost use Rattle.session_core.specs.EncodeReply.{encode_reply};
ghost use Rattle.session_core.specs.RoundTrip.{IsAnsweredWithin, OpensTo, what_is_sealed};
ghost use Rattle.session_core.specs.RoundTrip.{answer_given, pair_with, pairs_accepted};
ghost use Rattle.session_core.specs.Session.{Session};

use cred_seal::laws::sealed_text_is_one;
use decode_rules::laws::finding_is_one;
use munge_types::laws::one_more_event;

/// A request of a session that has done this of its own has one outcome at most, where the readings
/// of the clock are the same.
pub fn answer_is_one()
    ensures { (session : Session) (own : Own) (request : Message) (first second : Outcome)
        → Answers session own request first → Answers session own request second
        → first.readings ≡ second.readings → first ≡ second }
{
    finding_is_one();
    sealed_text_is_one();
}

/// What comes of requests is a function of the session, of what it had done of its own, of the
/// requests and of the readings of the clock, whichever replay state is inside.
pub fn run_is_one()
    ensures { (session : Session) (own : Own) (requests : List Message) (first second : Outcome)
        → Run session own requests first → Run session own requests second
        → first.readings ≡ second.readings → first ≡ second }
{
    answer_is_one();
}

/// No two decode replies of a run with rule 0 are for one pair, whatever the history before it, and
/// none is for a pair that was accepted before.
pub fn no_pair_is_accepted_twice()
    // the history accepts the pairs of the replies with rule 0, and none else
    ensures grown { (session : Session) (own : Own) (requests : List Message) (outcome : Outcome)
        (run : Run session own requests outcome)
        → accepted (session.base ++ outcome.own.events)
        ≡ accepted (session.base ++ own.events) ++ pairs_accepted session own requests outcome run }
    ensures once { (session : Session) (own : Own) (requests : List Message) (outcome : Outcome)
        (run : Run session own requests outcome)
        → IsDistinct pair_eq (pairs_accepted session own requests outcome run) }
    ensures anew { (session : Session) (own : Own) (requests : List Message) (outcome : Outcome)
        (run : Run session own requests outcome)
        → IsDistinct pair_eq
        (accepted (session.base ++ own.events)
        ++ pairs_accepted session own requests outcome run) }
    // a reply has a pair exactly where its rule is 0
    ensures rule { (session : Session) (own : Own) (text : List ℕ) (outcome : Outcome)
        (answers : AnswersText session own text outcome)
        → (pair_with session own (DecodeRequest text) outcome answers ≢ [])
        ↔ ((answer_given session own text outcome answers).rule ≡ 0) }
{
    one_more_event();
    munge_types::laws::no_pair_is_accepted_twice();
}

/// What a session sealed opens. The text of an encode reply with status 0, with any spaces round
/// it, opens in a decode request to the UID and GID of the caller who asked for it, to the
/// restrictions and the payload that were asked for, and to the moment of the request; or the reply
/// says by its number which of the rules 10 to 14 is broken. The two are any requests of one
/// session: those of one run, whatever comes before, between and after
/// (`each_request_is_answered`), or of several.
pub fn what_was_sealed_opens()
    ensures { (session : Session) (own own' : Own) (ask : EncodeAsk) (text before after : List ℕ)
        (outcome outcome' : Outcome) (sealed : AnswersAsk session own ask outcome)
        → outcome.replies ≡ encode_reply Success text → AreSpaces before → AreSpaces after
        → (asked : AnswersText session own' (before ++ (text ++ after)) outcome')
        → OpensTo session own'.events asked.moment
        (what_is_sealed session own ask outcome sealed) outcome'.replies }
{
    finding_is_one();
}

/// A run is that of the requests before a request, the answer to that request, and the run of those
/// behind it.
pub fn each_request_is_answered()
    ensures { (session : Session) (own : Own) (front back : List Message) (request : Message)
        (outcome : Outcome) → Run session own (front ++ request ∷ back) outcome
        → IsAnsweredWithin session own front request back outcome }
{}
